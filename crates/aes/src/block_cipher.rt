//! The cipher of FIPS 197 on one block. A round is four table look-ups to a column.
ghost use Rattle.std.specs.Prelude.{◌≡◌, ◌+◌, ◌-◌, ◌/◌, ◌%◌, ◌≤◌, [], ◌∷◌, length};
ghost use Rattle.std.proofs.Math.Seq.{paste};
ghost use Rattle.aes_tables.specs.Field.{S};
ghost use Rattle.aes_tables.specs.Words.{bytes, mix_column, xors};
ghost use Rattle.aes.specs.Cipher.{add_round_key, block, cipher, last_round, round_column, round_key, rounds};

use super::key_expansion::word_at;
use super::{Columns, KeySchedule};
use aes_tables::{mixed_column, sub_byte};

// One column of a round, from the columns that its four bytes come from.
fn round_column(a: u32, b: u32, c: u32, d: u32, k: u32) -> u32
    ensures { bytes result ≡ xors (mix_column (S (a / 16777216 % 256)) (S (b / 65536 % 256)) (S (c / 256 % 256)) (S (d % 256))) (bytes k) }
{
    mixed_column(
        a.to_be_bytes()[0],
        b.to_be_bytes()[1],
        c.to_be_bytes()[2],
        d.to_be_bytes()[3],
    ) ^ k
}

fn whole_round(s: Columns, k: Columns) -> Columns
    ensures column0 { bytes result.c0 ≡ round_column s k 0 }
    ensures column1 { bytes result.c1 ≡ round_column s k 1 }
    ensures column2 { bytes result.c2 ≡ round_column s k 2 }
    ensures column3 { bytes result.c3 ≡ round_column s k 3 }
{
    Columns {
        c0: round_column(s.c0, s.c1, s.c2, s.c3, k.c0),
        c1: round_column(s.c1, s.c2, s.c3, s.c0, k.c1),
        c2: round_column(s.c2, s.c3, s.c0, s.c1, k.c2),
        c3: round_column(s.c3, s.c0, s.c1, s.c2, k.c3),
    }
}

fn last_column(a: u32, b: u32, c: u32, d: u32, k: u32) -> u32
    ensures { bytes result ≡ xors (S (a / 16777216 % 256) ∷ S (b / 65536 % 256) ∷ S (c / 256 % 256) ∷ S (d % 256) ∷ []) (bytes k) }
{
    u32::from_be_bytes([
        sub_byte(a.to_be_bytes()[0]),
        sub_byte(b.to_be_bytes()[1]),
        sub_byte(c.to_be_bytes()[2]),
        sub_byte(d.to_be_bytes()[3]),
    ]) ^ k
}

// The last round has no MixColumns. (Apart from `whole_round`: that one promises each column by itself, this one the block.)
fn final_round(s: Columns, k: Columns) -> Columns
    ensures { block result ≡ last_round (block s) (block k) }
{
    Columns {
        c0: last_column(s.c0, s.c1, s.c2, s.c3, k.c0),
        c1: last_column(s.c1, s.c2, s.c3, s.c0, k.c1),
        c2: last_column(s.c2, s.c3, s.c0, s.c1, k.c2),
        c3: last_column(s.c3, s.c0, s.c1, s.c2, k.c3),
    }
}

fn add_round_key(s: Columns, k: Columns) -> Columns
    ensures { block result ≡ add_round_key (block s) (block k) }
{
    Columns {
        c0: s.c0 ^ k.c0,
        c1: s.c1 ^ k.c1,
        c2: s.c2 ^ k.c2,
        c3: s.c3 ^ k.c3,
    }
}

fn read_block(from: &[u8; 16]) -> Columns
    ensures { block result ≡ from.now }
{
    Columns {
        c0: word_at(from, 0),
        c1: word_at(from, 1),
        c2: word_at(from, 2),
        c3: word_at(from, 3),
    }
}

fn write_word(out: &mut [u8], at: usize, w: u32)
    requires { at + 4 ≤ length out.old }
    ensures { out.new ≡ paste out.old at (bytes w) 4 }
{
    out[at..at + 4].copy_from_slice(&w.to_be_bytes());
}

pub(crate) fn write_block(out: &mut [u8], at: usize, s: Columns)
    requires { at + 16 ≤ length out.old }
    ensures { out.new ≡ paste out.old at (block s) 16 }
{
    write_word(out, at, s.c0);
    write_word(out, at + 4, s.c1);
    write_word(out, at + 8, s.c2);
    write_word(out, at + 12, s.c3);
}

fn bytes_of(s: Columns) -> [u8; 16]
    ensures { result ≡ block s }
{
    let mut out = [0u8; 16];
    write_block(&mut out, 0, s);
    out
}

impl KeySchedule {
    fn round_key(&self, i: usize) -> Columns
        requires { i ≤ self.now.rounds }
        ensures { block result ≡ round_key self.now.words i }
    {
        let [c0, c1, c2, c3] = self.words.as_chunks::<4>().0[i];
        Columns { c0, c1, c2, c3 }
    }

    // Rounds 1 to Nr - 1.
    fn whole_rounds(&self, s: Columns) -> Columns
        ensures { block result ≡ rounds (self.now.rounds - 1) self.now.words (block s) }
    {
        // A loop and no `fold`: its closure would need at each round what `round_key` requires, and the fold's goals stay open.
        let mut s = s;
        for i in 1..self.rounds {
            s = whole_round(s, self.round_key(i));
        }
        s
    }

    pub(crate) fn encipher_columns(&self, s: Columns) -> Columns
        ensures { block result ≡ cipher self.now.rounds self.now.words (block s) }
    {
        let whitened = add_round_key(s, self.round_key(0));
        final_round(self.whole_rounds(whitened), self.round_key(self.rounds))
    }

    /// One block, enciphered.
    pub fn encipher(&self, plain: &[u8; 16]) -> [u8; 16]
        ensures { result ≡ cipher self.now.rounds self.now.words plain.now }
    {
        bytes_of(self.encipher_columns(read_block(plain)))
    }
}
