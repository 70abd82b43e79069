//! A running SHA-1.
use crate::words::HashValue;
use hash_blocks::buffer::Buffer;

/// The hash value, the unfinished block and the length in bytes; none of the bytes taken are kept.
// No `impl Model`: with one it could not be moved out of a struct while another field is lent, and no caller would know that fewer bytes
// than a block wait.
#[derive(Drop)]
pub struct Sha1 {
    pub(crate) buffer: Buffer<HashValue, 64>,
    pub(crate) len: u64,
}
