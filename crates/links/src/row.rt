//! Links in a row, numbered from 1, for any kind of link. A refusal says which link, and changes none.
ghost use Rattle.std.specs.Prelude.{◌≡◌, ℕ, ◌+◌, ◌-◌, ◌<◌, true, false, length, is_ok, if◌then◌else◌, MatchResult};
ghost use Rattle.links.specs.Rows.{rows, capacities, known, oldest_answer, oldest_seen, pass_answer, passed, emptied};

use crate::fault::{LinkError, LinkFault};
use crate::link::Link;
use crate::sizes::whole_cell;

// Where link j stands among n.
fn index(n: usize, j: u16) -> Result<usize, LinkFault>
    ensures { MatchResult result (λ i. (known n j ≡ true) × (i ≡ j - 1) × (i < n)) (λ e. (known n j ≡ false) × (e ≡ record { at = j; error = LinkError.NoSuchLink })) }
{
    usize::from(j)
        .checked_sub(1)
        .filter(|i| *i < n)
        .ok_or(fault(j, LinkError::NoSuchLink))
}

fn fault(at: u16, error: LinkError) -> LinkFault
    ensures { result ≡ record { at = at; error = error } }
{
    LinkFault { at, error }
}

fn is_empty<L: Link>(link: &L) -> bool
    ensures empty { result ≡ true → length (L.Link.cells link.now) ≡ 0 }
    ensures waits { result ≡ false → 0 < length (L.Link.cells link.now) }
{
    link.count() == 0
}

/// Copies the oldest cell of link j into the buffer.
pub fn oldest<L: Link>(links: &[L], j: u16, cell: &mut [u8]) -> Result<(), LinkFault>
    ensures answer { result ≡ oldest_answer (rows L.Link links.now) j cell.old }
    ensures shows { cell.new ≡ oldest_seen (rows L.Link links.now) j cell.old }
{
    let i = index(links.len(), j)?;
    links[i].look(cell).map_err(|e| fault(j, e))
}

/// Puts the cell on link `to` and drops the oldest of link `from`, or neither.
pub fn pass_on<L: Link>(links: &mut [L], from: u16, to: u16, cell: &[u8]) -> Result<(), LinkFault>
    ensures answer { result ≡ pass_answer (capacities L.Link links.old) (rows L.Link links.old) from to cell.now }
    ensures after { rows L.Link links.new ≡ (if is_ok result then passed (rows L.Link links.old) from to cell.now else rows L.Link links.old) }
    ensures fixed { capacities L.Link links.new ≡ capacities L.Link links.old }
{
    let source = index(links.len(), from)?;
    let target = index(links.len(), to)?;
    whole_cell(cell).map_err(|e| fault(to, e))?;
    if is_empty(&links[source]) {
        return Err(fault(from, LinkError::Empty));
    }
    links[target].put(cell).map_err(|e| fault(to, e))?;
    links[source].drop_oldest().map_err(|e| fault(from, e))
}

/// Lets the waiting cells of every link go.
#[tactic(auto, using(crate::proofs::Views::one_more_cleared))]
pub fn clear_all<L: Link>(links: &mut [L])
    ensures after { rows L.Link links.new ≡ emptied (rows L.Link links.old) }
    ensures fixed { capacities L.Link links.new ≡ capacities L.Link links.old }
{
    for link in links.iter_mut() {
        link.clear();
    }
}
