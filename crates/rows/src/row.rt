//! A row that owns its ends.
ghost use Rattle.std.specs.Prelude.{◌≡◌, ℕ, ◌+◌, ◌++◌, [], ◌∷◌, map, length, is_ok, IfSome, if◌then◌else◌, vec_items, vec_len};
ghost use Rattle.cell.specs.Payload.{zeroed};
ghost use Rattle.model.specs.Ends.{worn_out, worn_at, advanced};
ghost use Rattle.hops.specs.Views.{rules, end_seen};
ghost use Rattle.rows.specs.Views.{row_len, row_seen};
ghost use Rattle.rows.specs.Rows.{advanced_to, can_advance, Before, place_of, found_at, seek_left};

use crate::ends::{advance, seek, worn_at, worn_out};
use crypto::cipher::Cipher;
use crypto::digest::Digest;
use hops::End;
use std::alloc::AllocError;
use std::ops::DerefSlice;

// No `impl Model`: its Value would hold the digest's states, and may not name a bound's member.

/// The ends of hops in a row, the nearest first: one way of a circuit at one side.
#[derive(Drop)]
pub struct Row<C, D> {
    ends: Vec<End<C, D>>,
}

impl<C: Cipher, D: Digest + Drop> Row<C, D> {
    /// A row of these ends.
    pub fn new(ends: Vec<End<C, D>>) -> Row<C, D>
        ensures ends { row_seen D.Digest result ≡ map (end_seen D.Digest) ends.items }
        ensures len { row_len result ≡ vec_len ends }
    {
        Row { ends }
    }

    /// How many ends it has.
    pub fn len(&self) -> usize
        ensures { result ≡ row_len self.now }
    {
        self.ends.len()
    }

    /// Its ends.
    pub fn ends(&self) -> &[End<C, D>]
        ensures ends { map (end_seen D.Digest) result.now ≡ row_seen D.Digest self.now }
        ensures len { length result.now ≡ row_len self.now }
    {
        &self.ends
    }

    /// Whether an end up to place d is worn out.
    pub fn worn_out(&self, d: usize) -> bool
        ensures { result ≡ worn_out (row_seen D.Digest self.now) d }
    {
        worn_out(&self.ends, d)
    }

    /// The first end that is worn out.
    pub fn worn_at(&self) -> Option<usize>
        ensures first { result ≡ worn_at (row_seen D.Digest self.now) }
        ensures in_row { Before (row_len self.now) result }
    {
        worn_at(&self.ends)
    }

    /// Removes layers outward up to the first end whose test passes, and answers its place with its digest as it is once the payload
    /// is accepted.
    pub fn seek(&self, payload: &mut [u8]) -> Option<(usize, D)>
        ensures place { place_of result ≡ found_at (rules C.Cipher D.Digest) (row_seen D.Digest self.now) payload.old }
        ensures layers { payload.new ≡ seek_left (rules C.Cipher D.Digest) (row_seen D.Digest self.now) payload.old }
        ensures in_row { Before (row_len self.now) (place_of result) }
        ensures taken { IfSome result (λ x. advanced_to (row_seen D.Digest self.now) x.0 (D.Digest.state x.1) ≡ advanced (rules C.Cipher D.Digest) (row_seen D.Digest self.now) x.0 (zeroed payload.new)) }
    {
        seek(&self.ends, payload)
    }

    /// The row once a payload of the end at place d was sent or accepted: each end up to it used a layer, and its digest is the one given.
    /// Where there is no such end, or one of them is worn out, nothing changes.
    pub fn advance(&mut self, d: usize, taken: D)
        ensures ends { row_seen D.Digest self.new ≡ (if can_advance (row_seen D.Digest self.old) d then advanced_to (row_seen D.Digest self.old) d (D.Digest.state taken) else row_seen D.Digest self.old) }
        ensures len { row_len self.new ≡ row_len self.old }
    {
        advance(&mut self.ends, d, taken);
    }
}

impl<C: Cipher + Drop, D: Digest + Drop> Row<C, D> {
    /// One end more, behind the others.
    pub fn push(&mut self, end: End<C, D>) -> Result<(), AllocError>
        ensures ends { row_seen D.Digest self.new ≡ (if is_ok result then row_seen D.Digest self.old ++ end_seen D.Digest end ∷ [] else row_seen D.Digest self.old) }
        ensures len { row_len self.new ≡ (if is_ok result then row_len self.old + 1 else row_len self.old) }
    {
        self.ends.push(end)?;
        Ok(())
    }
}

/// A row is lent as its ends, to what takes a slice of them.
impl<C, D> DerefSlice for Row<C, D> {
    type Elem = End<C, D>;

    ghost deref_gives = { λ r es. es ≡ vec_items r.ends };

    fn deref(&self) -> &[End<C, D>] {
        self.ends.as_slice()
    }
}
