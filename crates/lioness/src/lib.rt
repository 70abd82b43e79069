//! LIONESS, the wide block cipher of R. Anderson and E. Biham, on payloads of 509 bytes:
//! the key stream is that of AES-256, and the keyed hash is SHA3-256 of the key and then the bytes.
#![tactic(auto)]

pub mod cipher;
pub mod steps;

// A step on R and a step on L, each under its key.
#[derive(Drop)]
struct Round {
    right_key: [u8; 32],
    left_key: [u8; 32],
}

/// A cipher for payloads under four keys of 32 bytes. Every layer number has the same rule.
#[derive(Drop)]
pub struct Lioness {
    first: Round,
    second: Round,
}
