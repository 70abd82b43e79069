//! The two ends on examples, with a cipher that changes nothing and digests whose tag never changes: coincidences, refusals and their
//! places, and what is late.
use crate::any_end::{AnyEnd, message, same};
use crate::circuit::relay;
use crate::forged::{Forged, blank};
use crate::marked::row;
use crate::toys::{Fixed, Identity};
use client::Client;
use relay::Relay;
use std::alloc::Global;
use std::test::*;

type Toys = Client<Identity, Fixed>;

type Toy = Relay<Identity, Fixed>;

fn client(heap: Global, tags: &[u8]) -> Result<Toys, Fail> {
    Ok(Client::new(heap, row(heap, tags)?, row(heap, tags)?)?)
}

// A payload that every end of tag 7 recognises.
fn sealed(command: u8, stream: u8) -> [u8; 509] {
    let mut payload = blank(Forged(command, stream, 0));
    payload[5..9].fill(7);
    payload
}

#[test]
fn coincides_at_the_farthest(rt: HostRuntime) -> Result<(), Fail> {
    let mut payload = [9u8; 509];
    let mut all = client(rt.alloc(), &[7, 7, 7])?;
    same(
        &rt,
        all.say(3, &message(10, 0, &[]), &mut payload),
        Err((11, 2)),
    )?;
    assert_eq!(rt; payload[0], 9);
    let mut nearest = client(rt.alloc(), &[7, 8, 7])?;
    same(
        &rt,
        nearest.say(3, &message(10, 0, &[]), &mut payload),
        Err((11, 1)),
    )?;
    same(
        &rt,
        nearest.say(1, &message(10, 0, &[]), &mut payload),
        Ok(()),
    )?;
    let mut apart = client(rt.alloc(), &[7, 8, 9])?;
    same(
        &rt,
        apart.say(3, &message(10, 0, &[]), &mut payload),
        Ok(()),
    )
}

#[test]
fn length_and_hop(rt: HostRuntime) -> Result<(), Fail> {
    let mut one = client(rt.alloc(), &[7])?;
    let mut payload = [0u8; 509];
    same(
        &rt,
        one.say(2, &message(9, 0, &[]), &mut payload[0..508]),
        Err((1, 0)),
    )?;
    same(
        &rt,
        one.say(2, &message(9, 0, &[]), &mut payload),
        Err((7, 2)),
    )?;
    same(
        &rt,
        one.say(1, &message(9, 0, &[]), &mut payload),
        Err((5, 1)),
    )?;
    same(&rt, one.admit(1, &mut payload), Err((12, 1)))
}

#[test]
fn unrecognised(rt: HostRuntime) -> Result<(), Fail> {
    let mut payload = [0u8; 509];
    let mut last: Toy = relay(3, true, 7, 7)?;
    assert_eq!(rt; last.take_in(&mut payload), Err((13, 3)));
    let mut nearer: Toy = relay(2, false, 7, 7)?;
    assert_eq!(rt; nearer.take_in(&mut payload), Ok(((0, 0, 0, 0), 0)));
    let mut two = client(rt.alloc(), &[7, 8])?;
    assert_eq!(rt; two.take_in(&mut payload), Err((13, 2)));
    Ok(())
}

#[test]
fn malformed_and_overrun(rt: HostRuntime) -> Result<(), Fail> {
    let mut last: Toy = relay(1, true, 7, 7)?;
    let mut long = sealed(2, 1);
    long[9..11].copy_from_slice(&499u16.to_be_bytes());
    assert_eq!(rt; last.take_in(&mut long), Err((14, 1)));
    let mut connected = sealed(4, 1);
    assert_eq!(rt; last.take_in(&mut connected), Err((14, 1)));
    let mut sendme = sealed(5, 0);
    assert_eq!(rt; last.take_in(&mut sendme), Err((15, 1)));
    Ok(())
}

#[test]
fn late_begin(rt: HostRuntime) -> Result<(), Fail> {
    let mut fourth: Toy = relay(4, false, 7, 7)?;
    let mut begin = sealed(1, 5);
    assert_eq!(rt; fourth.take_in(&mut begin), Ok(((4, 1, 5, 0), 0)));
    assert_eq!(rt;
        fourth.take_in(&mut begin),
        Ok(((4, 1, 5, 1), 0)),
        "the second is late"
    );
    let mut payload = [0u8; 509];
    same(
        &rt,
        fourth.say(4, &message(2, 5, b"early"), &mut payload),
        Err((8, 4)),
    )?;
    same(
        &rt,
        fourth.say(4, &message(4, 5, &[]), &mut payload),
        Ok(()),
    )?;
    same(
        &rt,
        fourth.say(4, &message(2, 5, b"data"), &mut payload),
        Ok(()),
    )?;
    assert_eq!(rt; payload[11], b'd');
    Ok(())
}
