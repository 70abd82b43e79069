//! Ciphers, digests and ends made from one byte.
use crate::toys::{Fixed, Identity};
use aes::CounterMode;
use crypto::cipher::Cipher;
use crypto::digest::Digest;
use hops::End;
use rows::Row;
use sha_1::running::Sha1;
use std::alloc::{AllocError, Global};

/// Equal bytes make equal keys.
pub trait Marked: Sized {
    fn marked(byte: u8) -> Self;
}

impl Marked for Identity {
    fn marked(_byte: u8) -> Identity {
        Identity
    }
}

impl Marked for Fixed {
    fn marked(byte: u8) -> Fixed {
        Fixed { byte }
    }
}

impl Marked for CounterMode {
    fn marked(byte: u8) -> CounterMode {
        CounterMode::new(&[byte; 16])
    }
}

impl Marked for Sha1 {
    fn marked(byte: u8) -> Sha1 {
        Sha1::seeded(&[byte; 20])
    }
}

pub fn end<C: Cipher + Marked, D: Digest + Marked + Drop>(byte: u8) -> End<C, D> {
    End::new(C::marked(byte), D::marked(byte))
}

/// Ends in a row, one for each byte.
pub fn row<C: Cipher + Marked + Drop, D: Digest + Marked + Drop>(
    heap: Global,
    bytes: &[u8],
) -> Result<Row<C, D>, AllocError> {
    let mut ends = Row::new(Vec::new(heap));
    for byte in bytes {
        ends.push(end(*byte))?;
    }
    Ok(ends)
}
