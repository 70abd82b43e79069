//! The key stream: the enciphered blocks 0, 1, 2, .. one after another.
ghost use Rattle.std.specs.Prelude.{◌≡◌, ℕ, ◌+◌, ◌*◌, ◌^◌, ◌<◌, ◌≤◌, length, slice_index};
ghost use Rattle.aes.specs.Cipher.{block};
ghost use Rattle.aes.specs.KeyStream.{counter_block, stream_at, streamed};

use super::block_cipher::write_block;
use super::{Columns, KeySchedule};
use aes_tables::xor_into;

// c as a block of 16 bytes, the first the highest.
fn counter(c: u64) -> Columns
    ensures { block result ≡ counter_block c }
{
    // Not by the bytes of u128::from(c), read as words: a layer then takes half as long again.
    Columns {
        c0: 0,
        c1: 0,
        c2: (c / 4294967296) as u32,
        c3: (c % 4294967296) as u32,
    }
}

impl KeySchedule {
    // Blocks first to first + n - 1 of the key stream.
    fn fill(&self, first: u64, n: usize, out: &mut [u8])
        requires is_room { 16 * n ≤ length out.old }
        requires is_before_end { first + n < 2 ^ 64 }
        ensures { (k : ℕ) → k < 16 * n → slice_index out.new k ≡ stream_at self.now.rounds self.now.words (16 * first + k) }
    {
        // Not `chunks_mut`: a proof knows no byte of a chunk after the loop.
        for j in 0..n {
            write_block(
                out,
                16 * j,
                self.encipher_columns(counter(first + j as u64)),
            );
        }
    }

    // Exclusive-ors into the part the key stream from byte skip of block first on: 33 blocks at most.
    fn xor_part(&self, first: u64, skip: usize, part: &mut [u8])
        requires is_in_block { skip < 16 }
        requires is_part { length part.old ≤ 512 }
        requires is_far_from_end { first < 2 ^ 63 }
        ensures { part.new ≡ streamed self.now.rounds self.now.words (16 * first + skip) part.old }
    {
        let mut stream = [0u8; 528];
        self.fill(first, (skip + part.len()).div_ceil(16), &mut stream);
        xor_into(part, &stream[skip..skip + part.len()]);
    }

    // Exclusive-ors the key stream from byte skip of block first on into all of `bytes`, 512 of them at a time.
    fn xor_from(&self, first: u64, skip: usize, bytes: &mut [u8])
        requires is_in_block { skip < 16 }
        requires is_far_from_end { first < 2 ^ 62 }
        ensures { bytes.new ≡ streamed self.now.rounds self.now.words (16 * first + skip) bytes.old }
    {
        let len = bytes.len();
        // By places, as in `fill`.
        for part in 0..len.div_ceil(512) {
            let start = 512 * part;
            let end = len.min(start + 512);
            self.xor_part(first + 32 * part as u64, skip, &mut bytes[start..end]);
        }
    }

    /// Exclusive-ors bytes at, at + 1, .. of the key stream into all of `bytes`.
    /// Positions are natural numbers: the stream does not end or begin again at the largest u64,
    /// since a block's number is that of a byte divided by 16, and so always fits.
    pub fn xor_stream(&self, at: u64, bytes: &mut [u8])
        ensures { bytes.new ≡ streamed self.now.rounds self.now.words at bytes.old }
    {
        self.xor_from(at / 16, (at % 16) as usize, bytes);
    }
}
