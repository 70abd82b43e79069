//! The 32 records of each end, and messages for streams that have none.
use crate::circuit::{Circuit, Step, relay};
use crate::forged::{Forged, forge_all};
use crate::marked::end;
use aes::CounterMode;
use hops::End;
use relay::Relay;
use sha_1::running::Sha1;
use std::test::*;

type Keyed = Circuit<CounterMode, Sha1>;

// An END of either end frees a record at both.
#[test]
fn at_the_client(rt: HostRuntime) -> Result<(), Fail> {
    let mut one = Keyed::new(rt.alloc(), &[1], &[2])?;
    for stream in 1..33u16 {
        one.repeat(&rt, 1, Step::Out(1, 1, stream), Ok((1, 1, stream, 0)))?;
    }
    one.play(
        &rt,
        &[
            (Step::Out(1, 1, 33), Err((8, 1))),
            (Step::Out(1, 3, 7), Ok((1, 3, 7, 0))),
            (Step::Out(1, 1, 33), Ok((1, 1, 33, 0))),
            (Step::Out(1, 1, 34), Err((8, 1))),
            (Step::Back(1, 3, 8), Ok((1, 3, 8, 0))),
            (Step::Out(1, 1, 34), Ok((1, 1, 34, 0))),
        ],
    )
}

// A client keeps to 32, so a sender that keeps no rule sends one more: it is late, until an END frees a record.
#[test]
fn at_a_relay(rt: HostRuntime) -> Result<(), Fail> {
    let mut fourth: Relay<CounterMode, Sha1> = relay(4, false, 1, 2)?;
    let mut sender: End<CounterMode, Sha1> = end(1);
    for stream in 1..33u8 {
        forge_all(
            &rt,
            &mut fourth,
            &mut sender,
            &[(Forged(1, stream, 0), Ok((4, 1, stream as u16, 0)))],
        )?;
    }
    forge_all(
        &rt,
        &mut fourth,
        &mut sender,
        &[
            (Forged(1, 33, 0), Ok((4, 1, 33, 1))),
            (Forged(3, 33, 0), Ok((4, 3, 33, 1))),
            (Forged(3, 7, 0), Ok((4, 3, 7, 0))),
            (Forged(1, 33, 0), Ok((4, 1, 33, 0))),
            (Forged(1, 34, 0), Ok((4, 1, 34, 1))),
        ],
    )
}

// BEGIN of stream 0, a second BEGIN, and DATA before the stream is open.
#[test]
fn late(rt: HostRuntime) -> Result<(), Fail> {
    let mut fourth: Relay<CounterMode, Sha1> = relay(4, false, 1, 2)?;
    let mut sender: End<CounterMode, Sha1> = end(1);
    forge_all(
        &rt,
        &mut fourth,
        &mut sender,
        &[
            (Forged(1, 0, 0), Ok((4, 1, 0, 1))),
            (Forged(1, 5, 0), Ok((4, 1, 5, 0))),
            (Forged(1, 5, 0), Ok((4, 1, 5, 1))),
            (Forged(2, 5, 0), Ok((4, 2, 5, 1))),
            (Forged(3, 5, 0), Ok((4, 3, 5, 0))),
            (Forged(3, 5, 0), Ok((4, 3, 5, 1))),
        ],
    )
}

// One stream's life: nothing is sent that its state does not allow.
#[test]
fn in_order(rt: HostRuntime) -> Result<(), Fail> {
    let mut one = Keyed::new(rt.alloc(), &[1], &[2])?;
    one.play(
        &rt,
        &[
            (Step::Back(1, 4, 9), Err((8, 1))),
            (Step::Out(1, 1, 9), Ok((1, 1, 9, 0))),
            (Step::Out(1, 1, 9), Err((8, 1))),
            (Step::Out(1, 2, 9), Err((8, 1))),
            (Step::Back(1, 2, 9), Err((8, 1))),
            (Step::Back(1, 4, 9), Ok((1, 4, 9, 0))),
            (Step::Back(1, 4, 9), Err((8, 1))),
            (Step::Out(1, 2, 9), Ok((1, 2, 9, 0))),
            (Step::Back(1, 2, 9), Ok((1, 2, 9, 0))),
            (Step::Out(1, 3, 9), Ok((1, 3, 9, 0))),
            (Step::Back(1, 2, 9), Err((8, 1))),
            (Step::Out(1, 1, 9), Err((8, 1))),
            (Step::Out(1, 1, 10), Ok((1, 1, 10, 0))),
        ],
    )
}
