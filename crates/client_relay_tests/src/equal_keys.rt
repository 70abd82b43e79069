//! Three hops of equal slips, in counter mode: two layers of one number cancel.
use crate::circuit::{Circuit, Step};
use aes::CounterMode;
use sha_1::running::Sha1;
use std::test::*;

type Keyed = Circuit<CounterMode, Sha1>;

// A cell for hop 3 coincides at hop 1 while hops 2 and 3 have used as many layers and hops 1 and 3 have taken the same.
#[test]
fn forward(rt: HostRuntime) -> Result<(), Fail> {
    let mut three = Keyed::new(rt.alloc(), &[1, 1, 1], &[2, 2, 2])?;
    three.play(
        &rt,
        &[
            (Step::Out(3, 10, 0), Err((11, 1))),
            (Step::Out(1, 10, 0), Ok((1, 10, 0, 0))),
            (Step::Out(3, 10, 0), Ok((3, 10, 0, 0))),
            (Step::Out(3, 10, 0), Err((11, 1))),
            (Step::Out(2, 10, 0), Ok((2, 10, 0, 0))),
        ],
    )?;
    for hop in [3u16, 1, 2, 3, 3, 2, 1, 1, 2, 3] {
        three.repeat(&rt, 1, Step::Out(hop, 10, 0), Ok((hop, 10, 0, 0)))?;
    }
    three.repeat(&rt, 1, Step::Out(3, 1, 5), Ok((3, 1, 5, 0)))
}

// On the way back no sender can see it. Here no cell coincides: hop 1 replies before hop 3, and hop 2 before hop 3 does again.
#[test]
fn backward(rt: HostRuntime) -> Result<(), Fail> {
    let mut three = Keyed::new(rt.alloc(), &[1, 1, 1], &[2, 2, 2])?;
    for hop in [1u16, 3, 2, 3, 1, 2, 3, 3, 2, 1] {
        three.repeat(&rt, 1, Step::Back(hop, 10, 0), Ok((hop, 10, 0, 0)))?;
    }
    Ok(())
}

// What hop 3 sends first is of hop 1 for the client, and so is what it sends next, since the layers and digests of hops 1 and 3 move on
// alike. Hop 2's layers have moved on at its relay alone, so the client recognises nothing of hop 2.
#[test]
fn backward_coincidence(rt: HostRuntime) -> Result<(), Fail> {
    let mut three = Keyed::new(rt.alloc(), &[1, 1, 1], &[2, 2, 2])?;
    three.play(
        &rt,
        &[
            (Step::Back(3, 10, 0), Ok((1, 10, 0, 0))),
            (Step::Back(3, 10, 0), Ok((1, 10, 0, 0))),
            (Step::Back(2, 10, 0), Err((13, 3))),
        ],
    )
}
