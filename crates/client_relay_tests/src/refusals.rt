//! What the ends refuse, and that nothing of it stays: what follows is taken as if the refused had not been.
use crate::any_end::{Answer, AnyEnd, Refusal, message, same};
use crate::circuit::{Circuit, Step, relay};
use crate::forged::{Forged, forge_all, forge_many};
use crate::marked::end;
use aes::CounterMode;
use crypto::cipher::Cipher;
use crypto::digest::Digest;
use hops::End;
use relay::Relay;
use sha_1::running::Sha1;
use std::process::Abort;
use std::test::*;

type Keyed = Circuit<CounterMode, Sha1>;

type KeyedRelay = Relay<CounterMode, Sha1>;

type KeyedEnd = End<CounterMode, Sha1>;

// 14 and 15 at an end that has never received; `astray` is a command of the other way. Then a DROP is taken.
fn refuses_all<E: AnyEnd, C: Cipher, D: Digest + Drop>(
    rt: &impl Abort,
    end: &mut E,
    sender: &mut End<C, D>,
    at: u16,
    astray: u8,
) -> Result<(), Fail> {
    forge_all(
        rt,
        end,
        sender,
        &[
            (Forged(2, 1, 499), Err((14, at))),
            (Forged(astray, 1, 0), Err((14, at))),
            (Forged(6, 1, 0), Err((14, at))),
            (Forged(5, 7, 0), Err((14, at))),
            (Forged(10, 7, 0), Err((14, at))),
            (Forged(5, 0, 0), Err((15, at))),
            (Forged(10, 0, 498), Ok((at, 10, 0, 0))),
        ],
    )
}

// Some DATA and then, in some rows, an acknowledgement. DATA of no stream is late and counted: 99 are not enough to acknowledge,
// 100 are; of 1,000 that are not acknowledged the next is too many.
fn counts_late<E: AnyEnd, C: Cipher, D: Digest + Drop>(
    rt: &impl Abort,
    end: &mut E,
    sender: &mut End<C, D>,
    at: u16,
) -> Result<(), Fail> {
    let late: Answer = Ok((at, 2, 9, 1));
    let rows: [(u32, Answer, Option<Result<(), Refusal>>); 7] = [
        (99, late, Some(Err((12, at)))),
        (1, late, Some(Ok(()))),
        (0, late, Some(Err((12, at)))),
        (1_000, late, None),
        (1, Err((15, at)), Some(Ok(()))),
        (100, late, None),
        (1, Err((15, at)), None),
    ];
    for (times, answer, admitted) in rows {
        forge_many(rt, end, sender, times, Forged(2, 9, 0), answer)?;
        if let Some(due) = admitted {
            same(rt, admits(end, at), due)?;
        }
    }
    Ok(())
}

fn admits<E: AnyEnd>(end: &mut E, at: u16) -> Result<(), Refusal> {
    let mut payload = [9u8; 509];
    end.admit(at, &mut payload)
}

#[test]
fn at_the_last_relay(rt: HostRuntime) -> Result<(), Fail> {
    let mut last: KeyedRelay = relay(3, true, 1, 2)?;
    let mut sender: KeyedEnd = end(1);
    let mut stranger: KeyedEnd = end(9);
    forge_all(
        &rt,
        &mut last,
        &mut stranger,
        &[(Forged(10, 0, 0), Err((13, 3)))],
    )?;
    refuses_all(&rt, &mut last, &mut sender, 3, 4)?;
    counts_late(&rt, &mut last, &mut sender, 3)
}

// The sender is the nearer of two hops, and 13 names the last.
#[test]
fn at_the_client(rt: HostRuntime) -> Result<(), Fail> {
    let mut two = Keyed::new(rt.alloc(), &[2, 3], &[1, 4])?;
    let mut sender: KeyedEnd = end(1);
    let mut stranger: KeyedEnd = end(9);
    forge_all(
        &rt,
        &mut two.client,
        &mut stranger,
        &[(Forged(10, 0, 0), Err((13, 2)))],
    )?;
    refuses_all(&rt, &mut two.client, &mut sender, 1, 1)?;
    counts_late(&rt, &mut two.client, &mut sender, 1)
}

// The length of the payload comes before all else, the command before the length of the data.
fn sizes<E: AnyEnd>(
    rt: &impl Abort,
    end: &mut E,
    short: &mut [u8],
    payload: &mut [u8],
    content: &[u8],
) -> Result<(), Fail> {
    assert_eq!(rt; end.take_in(short), Err((1, 0)));
    same(rt, end.say(0, &message(9, 0, content), short), Err((1, 0)))?;
    same(rt, end.admit(0, short), Err((1, 0)))?;
    same(
        rt,
        end.say(1, &message(9, 1, content), payload),
        Err((5, 1)),
    )?;
    same(
        rt,
        end.say(1, &message(10, 1, content), payload),
        Err((6, 1)),
    )
}

#[test]
fn of_sizes(rt: HostRuntime) -> Result<(), Fail> {
    let mut one = Keyed::new(rt.alloc(), &[1], &[2])?;
    let mut last: KeyedRelay = relay(1, true, 1, 2)?;
    let mut short = vec![in rt.alloc(); 9u8; 508]?;
    let mut payload = vec![in rt.alloc(); 9u8; 509]?;
    let content = vec![in rt.alloc(); 9u8; 499]?;
    sizes(&rt, &mut one.client, &mut short, &mut payload, &content)?;
    sizes(&rt, &mut last, &mut short, &mut payload, &content)
}

#[test]
fn before_sending(rt: HostRuntime) -> Result<(), Fail> {
    let mut one = Keyed::new(rt.alloc(), &[1], &[2])?;
    one.play(
        &rt,
        &[
            (Step::Out(0, 9, 0), Err((7, 0))),
            (Step::Out(2, 9, 0), Err((7, 2))),
            (Step::AdmitOut(2), Err((7, 2))),
            (Step::Out(1, 4, 0), Err((5, 1))),
            (Step::Out(1, 5, 0), Err((5, 1))),
            (Step::Back(1, 1, 0), Err((5, 1))),
            (Step::Back(1, 5, 0), Err((5, 1))),
            (Step::Out(1, 10, 1), Err((8, 1))),
            (Step::Back(1, 10, 1), Err((8, 1))),
            (Step::AdmitOut(1), Err((12, 1))),
            (Step::AdmitBack(1), Err((12, 1))),
            (Step::Out(1, 1, 1), Ok((1, 1, 1, 0))),
            (Step::Back(1, 4, 1), Ok((1, 4, 1, 0))),
        ],
    )
}
