//! What both kinds of link share: their start, and the sizes that they look at.
ghost use Rattle.std.specs.Prelude.{◌≡◌, ◌≢◌, length, MatchResult};
ghost use Rattle.links.specs.Kinds.{takes};

use crate::fault::LinkError;
use queue::Place;

// As `cell` has it: links know of cells only how long they are, and stand on no crate but `queue`.
pub(crate) const CELL_SIZE: usize = 514;

// The place where nothing waits.
pub(crate) const START: Place = Place { head: 0, count: 0 };

// Whether a kind of link that takes this many cells at most can have this capacity.
pub(crate) fn takes(most: usize, capacity: usize) -> bool
    ensures { result ≡ takes most capacity }
{
    (1..=most).contains(&capacity)
}

// Refuses what is no cell, and no buffer for one.
pub(crate) fn whole_cell(cell: &[u8]) -> Result<(), LinkError>
    ensures { MatchResult result (λ _. length cell.now ≡ 514) (λ e. (length cell.now ≢ 514) × (e ≡ LinkError.NotACell)) }
{
    if cell.len() != CELL_SIZE {
        return Err(LinkError::NotACell);
    }
    Ok(())
}
