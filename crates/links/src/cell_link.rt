//! A link that keeps whole cells, in slots that are used round and round.
#![tactic(auto, using(crate::proofs::Slots::slots_of_cells))]

ghost use Rattle.std.specs.Prelude.{◌≡◌, ℕ, ◌-◌, ◌<◌, ◌≤◌, true, List, [], length, drop, vec_len, MatchResult, slice_index_or, ◌≢◌};
ghost use Rattle.queue.specs.Ring.{waiting};
ghost use Rattle.links.specs.Lines.{Whole};
ghost use Rattle.links.specs.Kinds.{takes, new_link_error};
ghost use Rattle.std.proofs.Common.{sym};
ghost use Rattle.links.specs.Wholes.{some_below, waiting-bounded};

use crate::fault::{LinkError, NewLinkError};
use crate::link::Link;
use crate::sizes::{CELL_SIZE, START, takes, whole_cell};
use queue::Place;
use std::alloc::Global;

/// Slots and a place in them, and no `VecDeque`: a link's memory is fixed when it is made, and `queue` has the one code for both kinds.
#[derive(Drop)]
pub struct CellLink {
    slots: Vec<[u8; CELL_SIZE]>,
    place: Place,
    ghost sound: { (place.head < vec_len slots) × (place.count ≤ vec_len slots) × (vec_len slots ≤ 65535) },
    ghost whole: { Whole (waiting slots.items place) },
}

impl CellLink {
    /// A link for 1 to 65,535 cells, on which none waits.
    pub fn new(heap: Global, capacity: usize) -> Result<CellLink, NewLinkError>
        ensures { MatchResult result
            (λ l. (takes 65535 capacity ≡ true) × (vec_len l.slots ≡ capacity) × (waiting l.slots.items l.place ≡ []))
            (λ e. e ≡ new_link_error 65535 capacity) }
    {
        if !takes(65_535, capacity) {
            return Err(NewLinkError::Capacity);
        }
        Ok(CellLink {
            slots: vec![in heap; [0u8; CELL_SIZE]; capacity]?,
            place: START,
        })
    }
}

// A cell as a record of its own.
fn record_of(cell: &[u8]) -> Result<[u8; CELL_SIZE], LinkError>
    ensures { MatchResult result (λ copy. (length cell.now ≡ 514) × (copy ≡ cell.now)) (λ e. (length cell.now ≢ 514) × (e ≡ LinkError.NotACell)) }
{
    <[u8; CELL_SIZE]>::try_from(cell).map_err(|_| LinkError::NotACell)
}

// The oldest record, where one waits.
fn first(slots: &[[u8; CELL_SIZE]], place: Place) -> Result<[u8; CELL_SIZE], LinkError>
    requires { (place.head < length slots.now) × (place.count ≤ length slots.now) }
    ensures { MatchResult result
        (λ x. (0 < place.count) × ((d : List ℕ) → x ≡ slice_index_or (waiting slots.now place) 0 d))
        (λ e. (place.count ≡ 0) × (e ≡ LinkError.Empty)) }
{
    queue::front(slots, place).map_err(|_| LinkError::Empty)
}

// The place once the oldest record is gone, where one waits. (As `past_oldest` of the other kind, which promises of whole cells what
// the ring's ghost fields hold.)
fn past_first(slots: &[[u8; CELL_SIZE]], place: Place) -> Result<Place, LinkError>
    requires { (place.head < length slots.now) × (place.count ≤ length slots.now) }
    ensures { MatchResult result
        (λ p. (0 < place.count)
        × (p.head < length slots.now)
        × (p.count ≡ place.count - 1)
        × (waiting slots.now p ≡ drop 1 (waiting slots.now place)))
        (λ e. (place.count ≡ 0) × (e ≡ LinkError.Empty)) }
{
    queue::past(slots, place, 1).map_err(|_| LinkError::Empty)
}

impl Link for CellLink {
    ghost capacity = { λ l. vec_len l.slots };

    ghost cells = { λ l. waiting l.slots.items l.place };

    ghost least = { λ l. some_below l.place.head (vec_len l.slots) l.sound.0 };

    ghost most = { λ l. l.sound.2 };

    ghost bounded = { λ l. waiting-bounded l.slots.items l.place (vec_len l.slots) (sym l.slots.ok.0) l.sound.0 l.sound.1 };

    ghost whole = { λ l. l.whole };

    fn put(&mut self, cell: &[u8]) -> Result<(), LinkError> {
        let record = record_of(cell)?;
        self.place = queue::put(&mut self.slots, self.place, record).map_err(|_| LinkError::Full)?;
        Ok(())
    }

    fn look(&self, cell: &mut [u8]) -> Result<(), LinkError> {
        whole_cell(cell)?;
        cell.copy_from_slice(&first(&self.slots, self.place)?);
        Ok(())
    }

    fn drop_oldest(&mut self) -> Result<(), LinkError> {
        self.place = past_first(&self.slots, self.place)?;
        Ok(())
    }

    fn count(&self) -> usize {
        self.place.count
    }

    fn clear(&mut self) {
        self.place = START;
    }
}
