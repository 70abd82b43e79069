//! How long cells and payloads are, in bytes.
ghost use Rattle.std.specs.Prelude.{◌≡◌, length, Some, None, MatchResult};
ghost use Rattle.cell.specs.Refusals.{size_refusal};

use crate::error::CellError;

pub const CELL_SIZE: usize = 514;

pub const PAYLOAD_SIZE: usize = 509;

/// The bytes of a payload before its data.
pub const HEADER_SIZE: usize = 11;

/// The longest data that a payload holds.
pub const DATA_LIMIT: usize = 498;

// Refuses bytes of another length.
pub(crate) fn sized(bytes: &[u8], size: usize) -> Result<(), CellError>
    ensures { MatchResult result
        (λ _. (size_refusal size bytes.now ≡ None) × (length bytes.now ≡ size))
        (λ e. size_refusal size bytes.now ≡ Some e) }
{
    if bytes.len() != size {
        return Err(CellError::Length);
    }
    Ok(())
}
