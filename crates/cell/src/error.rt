//! What a cell or a payload is refused for.

use std::error::Error;
use std::fmt;

#[derive(Clone, Copy, PartialEq, Eq, Debug)]
pub enum CellError {
    /// A cell that is not 514 bytes, or a payload that is not 509.
    Length,
    /// A cell command or a circuit number that is not the expected one.
    Header,
    /// Data above 498 bytes.
    TooLong,
}

impl fmt::Display for CellError {
    fn fmt<W: fmt::Write>(&self, f: &mut fmt::Formatter<W>) -> fmt::Result {
        f.write_str(match self {
            CellError::Length => "the cell or the payload has another length",
            CellError::Header => "the cell has another command or circuit number",
            CellError::TooLong => "the data is longer than a payload holds",
        })
    }
}

impl Error for CellError {}
