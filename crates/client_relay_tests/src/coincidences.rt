//! Cells that another hop would take for its own, by tags that never change.
use crate::circuit::{Circuit, Step};
use crate::toys::{Fixed, Identity};
use std::test::*;

type Toys = Circuit<Identity, Fixed>;

#[test]
fn at_the_client(rt: HostRuntime) -> Result<(), Fail> {
    let mut same = Toys::new(rt.alloc(), &[7, 7, 7], &[1, 2, 3])?;
    same.play(
        &rt,
        &[
            (Step::Out(3, 10, 0), Err((11, 2))),
            (Step::Out(2, 10, 0), Err((11, 1))),
        ],
    )?;
    let mut nearest = Toys::new(rt.alloc(), &[7, 8, 7], &[1, 2, 3])?;
    nearest.play(
        &rt,
        &[
            (Step::Out(3, 10, 0), Err((11, 1))),
            (Step::Out(2, 10, 0), Ok((2, 10, 0, 0))),
            (Step::Out(1, 10, 0), Ok((1, 10, 0, 0))),
        ],
    )?;
    let mut apart = Toys::new(rt.alloc(), &[7, 8, 9], &[1, 2, 3])?;
    apart.play(&rt, &[(Step::Out(3, 10, 0), Ok((3, 10, 0, 0)))])
}

// Relay 2 has the tag that the client has for hop 3: it takes what is for hop 3, and the stream is open at neither hop.
#[test]
fn at_a_relay(rt: HostRuntime) -> Result<(), Fail> {
    let own = Toys::new(rt.alloc(), &[7, 8, 9], &[1, 2, 3])?;
    let others = Toys::new(rt.alloc(), &[7, 9, 9], &[1, 2, 3])?;
    let mut three = Toys {
        client: own.client,
        relays: others.relays,
    };
    three.play(
        &rt,
        &[
            (Step::Out(3, 1, 5), Ok((2, 1, 5, 0))),
            (Step::Back(2, 4, 5), Ok((2, 4, 5, 1))),
            (Step::Back(3, 4, 5), Err((8, 3))),
        ],
    )
}

// Hops 1 and 3 have one tag backward: what relay 3 sends is of hop 1 for the client, where it has no stream.
#[test]
fn backward(rt: HostRuntime) -> Result<(), Fail> {
    let mut three = Toys::new(rt.alloc(), &[1, 2, 3], &[7, 8, 7])?;
    three.play(
        &rt,
        &[
            (Step::Out(3, 1, 5), Ok((3, 1, 5, 0))),
            (Step::Back(3, 4, 5), Ok((1, 4, 5, 1))),
            (Step::Out(3, 2, 5), Err((8, 3))),
            (Step::Back(2, 10, 0), Ok((2, 10, 0, 0))),
            (Step::Back(3, 2, 5), Ok((1, 2, 5, 1))),
        ],
    )
}
