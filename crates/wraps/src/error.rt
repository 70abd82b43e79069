//! Refusals.

use std::error::Error;
use std::fmt;

/// Why a row of ends does not wrap a payload.
#[derive(Clone, Copy, Debug, PartialEq, Eq)]
pub enum WrapError {
    /// The payload is not 509 bytes.
    Length,
    /// The row has no end at this place.
    NoSuchHop,
    /// The end at this place would take the payload for its own.
    Coincidence(usize),
}

impl fmt::Display for WrapError {
    fn fmt<W: fmt::Write>(&self, f: &mut fmt::Formatter<W>) -> fmt::Result {
        f.write_str(match self {
            WrapError::Length => "the payload is not 509 bytes",
            WrapError::NoSuchHop => "there is no such hop (7)",
            WrapError::Coincidence(_) => "a nearer hop would take the cell for its own (11)",
        })
    }
}

impl Error for WrapError {}
