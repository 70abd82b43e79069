//! Where in a ring the waiting elements are.

use std::error::Error;
use std::fmt;

/// The slot of the oldest element, and how many wait from there on and round.
#[derive(Clone, Copy, PartialEq, Eq, Debug)]
pub struct Place {
    pub head: usize,
    pub count: usize,
}

#[derive(Clone, Copy, PartialEq, Eq, Debug)]
pub enum QueueError {
    /// The place is none of this ring.
    Astray,
    /// There is no room for what is put.
    Full,
    /// Fewer wait than are asked for.
    Short,
}

impl fmt::Display for QueueError {
    fn fmt<W: fmt::Write>(&self, f: &mut fmt::Formatter<W>) -> fmt::Result {
        f.write_str(match self {
            QueueError::Astray => "the place is none of this ring",
            QueueError::Full => "the ring has no room for it",
            QueueError::Short => "fewer elements wait",
        })
    }
}

impl Error for QueueError {}
