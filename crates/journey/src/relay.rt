//! What a relay does with a payload that comes outward.
use crypto::cipher::Cipher;
use crypto::digest::Digest;
use hops::{End, check_is_zero};

/// What became of a payload at a relay. Three cases: the two that pass it on are printed differently.
#[derive(Clone, Copy, Debug, PartialEq, Eq)]
pub enum Fate {
    /// The test passed: the payload is for this relay.
    Recognised,
    /// The two check bytes are not zero.
    Passing,
    /// The two check bytes are zero, but the tag is not this relay's.
    PassingByChance,
}

/// Removes the relay's layer and makes its test. Only a payload that passes it moves the digest.
pub fn receive<C: Cipher, D: Digest + Drop>(relay: &mut End<C, D>, payload: &mut [u8]) -> Fate {
    relay.remove_layer(payload);
    if let Some(taken) = relay.recognise(payload) {
        relay.take_on(taken);
        return Fate::Recognised;
    }
    relay.move_on();
    if check_is_zero(payload) {
        Fate::PassingByChance
    } else {
        Fate::Passing
    }
}
