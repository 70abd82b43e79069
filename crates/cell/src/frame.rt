//! A cell: 514 bytes, of which four are the circuit number, one the cell command and the rest the payload.
ghost use Rattle.std.specs.Prelude.{◌≡◌, ℕ, ◌+◌, ◌*◌, true, false, ◌&&◌, [], ◌∷◌, ◌++◌, length, if◌then◌else◌, Some, None, MatchResult, ◌==◌, nat_eq};
ghost use Rattle.cell.specs.Frame.{cell_number, relay_cell, four_bytes, framed, number_of, cell_command_of, payload_of};
ghost use Rattle.cell.specs.Refusals.{cell_refusal, size_refusal};

use crate::error::CellError;
use crate::parts::put_part;
use crate::sizes::{CELL_SIZE, PAYLOAD_SIZE, sized};

/// The one cell command, RELAY.
const RELAY: u8 = 3;

/// A cell taken apart where it lies.
#[derive(Clone, Copy, PartialEq, Eq, Debug)]
pub struct Cell<'a> {
    pub number: u32,
    /// The byte as it was read: an enum would have RELAY alone.
    pub command: u8,
    pub payload: &'a [u8],
}

/// The circuit number on both links j.
#[tactic(auto, unfolding(crate::specs::Frame::cell_number))]
pub fn cell_number(j: u16) -> u32
    ensures { result ≡ cell_number j }
{
    // The highest bit of a circuit number is set.
    0x8000_0000 + u32::from(j)
}

// A circuit number is written with its high byte first.
fn circuit_number(c0: u8, c1: u8, c2: u8, c3: u8) -> u32
    ensures { result ≡ ((c0 * 256 + c1) * 256 + c2) * 256 + c3 }
{
    u32::from_be_bytes([c0, c1, c2, c3])
}

fn is_expected(command: u8, found: u32, number: u32) -> bool
    ensures expected { result ≡ true → (command ≡ relay_cell) × (found ≡ number) }
    ensures unexpected { result ≡ false → (command == relay_cell) && (found == number) ≡ false }
{
    command == RELAY && found == number
}

/// Takes a cell apart; one of another length is refused before one of another command or circuit number.
#[tactic(auto, unfolding(crate::specs::Frame::number_of, crate::specs::Frame::cell_command_of))]
pub fn read_cell(cell: &[u8], number: u32) -> Result<Cell<'_>, CellError>
    ensures { MatchResult result
        (λ c. (cell_refusal number cell.now ≡ None)
        × (c.number ≡ number_of cell.now)
        × (c.command ≡ cell_command_of cell.now)
        × (c.payload.now ≡ payload_of cell.now)
        × (length c.payload.now ≡ 509)
        × (framed number c.payload.now ≡ cell.now))
        (λ e. cell_refusal number cell.now ≡ Some e) }
{
    // Taken apart by one pattern that names the five bytes and the rest: a form that the project fixed.
    let [c0, c1, c2, c3, command, payload @ ..] = cell else {
        return Err(CellError::Length);
    };
    sized(payload, PAYLOAD_SIZE)?;
    let found = circuit_number(*c0, *c1, *c2, *c3);
    if !is_expected(*command, found, number) {
        return Err(CellError::Header);
    }
    Ok(Cell {
        number: found,
        command: *command,
        payload,
    })
}

fn header(number: u32) -> [u8; 5]
    ensures { result ≡ four_bytes number ++ (relay_cell ∷ []) }
{
    let [n0, n1, n2, n3] = number.to_be_bytes();
    [n0, n1, n2, n3, RELAY]
}

/// Writes the five bytes before the payload.
#[tactic(auto, unfolding(crate::specs::Frame::framed, crate::specs::Frame::payload_of))]
pub fn write_header(cell: &mut [u8], number: u32) -> Result<(), CellError>
    ensures refuses { MatchResult result (λ _. size_refusal 514 cell.old ≡ None) (λ e. size_refusal 514 cell.old ≡ Some e) }
    ensures writes { cell.new ≡ (if nat_eq (length cell.old) 514 then framed number (payload_of cell.old) else cell.old) }
{
    sized(cell, CELL_SIZE)?;
    put_part(cell, 0, &header(number));
    Ok(())
}
