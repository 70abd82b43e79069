//! A slip, and the suites that it may be for.

/// A suite's number, and the slip's bytes: the digest seeds of the ways forward and backward,
/// then their cipher keys. Opening it uses it up: two ends that share keys have a slip each. The suite is a number, since a slip
/// may name one that is none: opening refuses it.
#[derive(Drop)]
pub struct Slip {
    pub(crate) suite: u16,
    pub(crate) bytes: Vec<u8>,
}

#[derive(Clone, Copy)]
pub(crate) enum Suite {
    /// AES-128 in counter mode, and SHA-1.
    Aes128Sha1,
    /// AES-256 in counter mode, and SHA3-256.
    Aes256Sha3,
    /// LIONESS, and SHA3-256.
    LionessSha3,
}
