//! A link: a capacity that does not change, and a line of cells that wait, the oldest first.
ghost use Rattle.std.specs.Prelude.{◌≡◌, ℕ, ◌≤◌, List, [], length, drop};
ghost use Rattle.links.specs.Lines.{Whole, put_answer, put_cells, look_answer, looked, drop_answer};

use crate::fault::LinkError;

pub trait Link {
    ghost capacity: { Self → ℕ };

    ghost cells: { Self → List (List ℕ) };

    /// Puts a cell behind the last.
    fn put(&mut self, cell: &[u8]) -> Result<(), LinkError>
        ensures answer { result ≡ put_answer (capacity self.old) (cells self.old) cell.now }
        ensures after { cells self.new ≡ put_cells (capacity self.old) (cells self.old) cell.now }
        ensures fixed { capacity self.new ≡ capacity self.old };

    /// Copies the oldest cell into the buffer; it goes on waiting.
    fn look(&self, cell: &mut [u8]) -> Result<(), LinkError>
        ensures answer { result ≡ look_answer (cells self.now) cell.old }
        ensures shows { cell.new ≡ looked (cells self.now) cell.old };

    fn drop_oldest(&mut self) -> Result<(), LinkError>
        ensures answer { result ≡ drop_answer (cells self.old) }
        ensures after { cells self.new ≡ drop 1 (cells self.old) }
        ensures fixed { capacity self.new ≡ capacity self.old };

    /// How many cells wait.
    fn count(&self) -> usize
        ensures { result ≡ length (cells self.now) };

    /// Lets all waiting cells go.
    fn clear(&mut self)
        ensures after { cells self.new ≡ [] }
        ensures fixed { capacity self.new ≡ capacity self.old };

    ghost least: { (l : Self) → 1 ≤ capacity l };

    ghost most: { (l : Self) → capacity l ≤ 65535 };

    ghost bounded: { (l : Self) → length (cells l) ≤ capacity l };

    ghost whole: { (l : Self) → Whole (cells l) };
}
