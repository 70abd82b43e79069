//! Windows run down and opened again, between a client and a relay of real keys.
use crate::circuit::{Circuit, Step};
use aes::CounterMode;
use crypto::cipher::Cipher;
use crypto::digest::Digest;
use sha_1::running::Sha1;
use std::process::Abort;
use std::test::*;

type Keyed = Circuit<CounterMode, Sha1>;

// Stream 5 is opened at both ends of hop 1, and then two windows of DATA are sent, each acknowledged in ten parts.
fn two_windows<C: Cipher, D: Digest + Drop>(
    rt: &impl Abort,
    one: &mut Circuit<C, D>,
    send: Step,
    admit: Step,
) -> Result<(), Fail> {
    one.repeat(rt, 1, Step::Out(1, 1, 5), Ok((1, 1, 5, 0)))?;
    one.repeat(rt, 1, Step::Back(1, 4, 5), Ok((1, 4, 5, 0)))?;
    for _ in 0..2 {
        one.repeat(rt, 1_000, send, Ok((1, 2, 5, 0)))?;
        one.repeat(rt, 2, send, Err((9, 1)))?;
        one.repeat(rt, 10, admit, Ok((1, 5, 0, 0)))?;
        one.repeat(rt, 1, admit, Err((12, 1)))?;
    }
    one.repeat(rt, 1, send, Ok((1, 2, 5, 0)))
}

#[test]
fn forward(rt: HostRuntime) -> Result<(), Fail> {
    let mut one = Keyed::new(rt.alloc(), &[1], &[2])?;
    two_windows(&rt, &mut one, Step::Out(1, 2, 5), Step::AdmitBack(1))
}

#[test]
fn backward(rt: HostRuntime) -> Result<(), Fail> {
    let mut one = Keyed::new(rt.alloc(), &[1], &[2])?;
    two_windows(&rt, &mut one, Step::Back(1, 2, 5), Step::AdmitOut(1))
}
