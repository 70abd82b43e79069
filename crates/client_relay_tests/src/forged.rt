//! A sender that has a hop's keys and keeps no rule.
use crate::any_end::{Answer, AnyEnd, same, same_bytes};
use crypto::cipher::Cipher;
use crypto::digest::Digest;
use hops::End;
use std::process::Abort;
use std::test::*;

/// Command, stream and length field.
#[derive(Clone, Copy)]
pub struct Forged(pub u8, pub u8, pub u16);

/// By hand, since `write_payload` writes nothing that a rule forbids.
pub fn blank(forged: Forged) -> [u8; 509] {
    let Forged(command, stream, length) = forged;
    let mut payload = [0u8; 509];
    payload[0] = command;
    payload[4] = stream;
    payload[9..11].copy_from_slice(&length.to_be_bytes());
    payload
}

// End and sender are lent one by one, since a test lets strangers send to the same end.
/// What an end answers to a payload that is sealed and has the sender's layer. One that is taken has lost the layer, and the sender
/// moves on; one that is refused stays as it was, and the sender is where it was.
pub fn forge<E: AnyEnd, C: Cipher, D: Digest + Drop>(
    rt: &impl Abort,
    end: &mut E,
    sender: &mut End<C, D>,
    forged: Forged,
) -> Result<Answer, Fail> {
    let mut payload = blank(forged);
    let taken = sender.seal(&mut payload)?;
    let sealed = payload;
    sender.add_layer(&mut payload);
    let covered = payload;
    match end.take_in(&mut payload) {
        Ok((heading, _)) => {
            same_bytes(rt, &payload, &sealed)?;
            sender.take_on(taken);
            Ok(Ok(heading))
        }
        Err(refusal) => {
            same_bytes(rt, &payload, &covered)?;
            Ok(Err(refusal))
        }
    }
}

// As `play` and `repeat` of a circuit: one function for both would need a closure that borrows end and sender changeably.
/// Each payload has its answer.
pub fn forge_all<E: AnyEnd, C: Cipher, D: Digest + Drop>(
    rt: &impl Abort,
    end: &mut E,
    sender: &mut End<C, D>,
    all: &[(Forged, Answer)],
) -> Result<(), Fail> {
    for (forged, answer) in all {
        same(rt, forge(rt, end, sender, *forged)?, *answer)?;
    }
    Ok(())
}

/// The same many times.
pub fn forge_many<E: AnyEnd, C: Cipher, D: Digest + Drop>(
    rt: &impl Abort,
    end: &mut E,
    sender: &mut End<C, D>,
    times: u32,
    forged: Forged,
    answer: Answer,
) -> Result<(), Fail> {
    for _ in 0..times {
        same(rt, forge(rt, end, sender, forged)?, answer)?;
    }
    Ok(())
}
