//! A running SHA3-256.
use crate::planes::KeccakState;
use hash_blocks::buffer::Buffer;

/// The state and the unfinished block; none of the bytes taken are kept.
// No `impl Model`: with one it could not be moved out of a struct while another field is lent, and no caller would know that fewer bytes
// than a block wait.
#[derive(Drop)]
pub struct Sha3 {
    pub(crate) buffer: Buffer<KeccakState, 136>,
}
