//! A link that keeps the bytes of its cells in one ring.
#![tactic(auto, using(crate::proofs::Slots::bytes_of_cells))]

ghost use Rattle.std.specs.Prelude.{◌≡◌, ℕ, ◌-◌, ◌*◌, ◌/◌, ◌%◌, ◌<◌, ◌≤◌, true, false, [], length, take, drop, MatchResult};
ghost use Rattle.queue.specs.Ring.{waiting};
ghost use Rattle.links.specs.Cuts.{cut};
ghost use Rattle.links.specs.Kinds.{takes};
ghost use Rattle.links.specs.Wholes.{few_cells, cut_bounded, cut_whole};

use crate::fault::{LinkError, NewLinkError};
use crate::link::Link;
use crate::sizes::{CELL_SIZE, START, takes, whole_cell};
use queue::Place;

/// How many bytes the ring has.
const RING_SIZE: usize = 2_100;

/// A ring and a place in it, and no `VecDeque`: a link's memory is fixed when it is made, and `queue` has the one code for both kinds.
#[derive(Drop)]
pub struct ByteLink {
    ring: [u8; RING_SIZE],
    place: Place,
    capacity: usize,
    ghost sound: { (length ring ≡ 2100) × (place.head < 2100) × (place.count % 514 ≡ 0) × (place.count ≤ capacity * 514) },
    ghost few: { (1 ≤ capacity) × (capacity ≤ 4) },
}

impl ByteLink {
    /// A link for 1 to 4 cells, as many as 2,100 bytes hold, on which none waits.
    pub fn new(capacity: usize) -> Result<ByteLink, NewLinkError>
        ensures { MatchResult result
            (λ l. (takes 4 capacity ≡ true) × (l.capacity ≡ capacity) × (l.place.count ≡ 0))
            (λ e. (takes 4 capacity ≡ false) × (e ≡ NewLinkError.Capacity)) }
    {
        if !takes(4, capacity) {
            return Err(NewLinkError::Capacity);
        }
        Ok(ByteLink {
            ring: [0; RING_SIZE],
            place: START,
            capacity,
        })
    }

    fn whole_cells(&self) -> usize
        ensures { result ≡ self.now.place.count / 514 }
    {
        self.place.count / CELL_SIZE
    }

    fn is_full(&self) -> bool
        ensures full { result ≡ true → self.now.capacity ≤ self.now.place.count / 514 }
        ensures has_room { result ≡ false → self.now.place.count / 514 < self.now.capacity }
    {
        self.whole_cells() >= self.capacity
    }

    // (No `From<QueueError>`, here and below: a place astray, which no link has, would have to be one of a link's refusals.)
    // Copies the oldest cell out, where one waits.
    fn copy_oldest(&self, cell: &mut [u8]) -> Result<(), LinkError>
        requires { length cell.old ≡ 514 }
        ensures { MatchResult result
            (λ _. (514 ≤ self.now.place.count) × (cell.new ≡ take 514 (waiting self.now.ring self.now.place)))
            (λ e. (self.now.place.count < 514) × (e ≡ LinkError.Empty) × (cell.new ≡ cell.old)) }
    {
        queue::copy_out(&self.ring, self.place, cell).map_err(|_| LinkError::Empty)
    }

    // The place once the oldest cell is gone, where one waits.
    fn past_oldest(&self) -> Result<Place, LinkError>
        ensures { MatchResult result
            (λ p. (514 ≤ self.now.place.count)
            × (p.head < 2100)
            × (p.count ≡ self.now.place.count - 514)
            × (waiting self.now.ring p ≡ drop 514 (waiting self.now.ring self.now.place)))
            (λ e. (self.now.place.count < 514) × (e ≡ LinkError.Empty)) }
    {
        queue::past(&self.ring, self.place, CELL_SIZE).map_err(|_| LinkError::Empty)
    }
}

impl Link for ByteLink {
    ghost capacity = { λ l. l.capacity };

    ghost cells = { λ l. cut (l.place.count / 514) (waiting l.ring l.place) };

    ghost least = { λ l. l.few.0 };

    ghost most = { λ l. few_cells l.capacity l.few.1 };

    ghost bounded = { λ l. cut_bounded l.ring l.place l.capacity l.sound.3 };

    ghost whole = { λ l. cut_whole l.ring l.place l.capacity l.sound.0 l.sound.1 l.sound.3 l.few.1 };

    fn put(&mut self, cell: &[u8]) -> Result<(), LinkError> {
        whole_cell(cell)?;
        if self.is_full() {
            return Err(LinkError::Full);
        }
        self.place = queue::put_all(&mut self.ring, self.place, cell).map_err(|_| LinkError::Full)?;
        Ok(())
    }

    fn look(&self, cell: &mut [u8]) -> Result<(), LinkError> {
        whole_cell(cell)?;
        self.copy_oldest(cell)
    }

    fn drop_oldest(&mut self) -> Result<(), LinkError> {
        self.place = self.past_oldest()?;
        Ok(())
    }

    fn count(&self) -> usize {
        self.whole_cells()
    }

    fn clear(&mut self) {
        self.place = START;
    }
}
