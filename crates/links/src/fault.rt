//! What a link refuses a call for, and which link it was.
ghost use Rattle.std.specs.Prelude.{◌≡◌};
ghost use Rattle.links.specs.declared.fault.NewLinkError.TheVariants.{Memory};

use std::alloc::AllocError;
use std::error::Error;
use std::fmt;

#[derive(Clone, Copy, PartialEq, Eq, Debug)]
pub enum LinkError {
    /// The cell, or the buffer for one, is not 514 bytes.
    NotACell,
    /// As many cells wait as the link takes.
    Full,
    /// No cell waits.
    Empty,
    /// No link has this number.
    NoSuchLink,
}

/// A link's refusal, whole, with the number of the link.
// A place beside an error, as in the other two layers: one generic fault would need a crate below all three, and `number` a trait.
#[derive(Clone, Copy, PartialEq, Eq, Debug)]
pub struct LinkFault {
    pub at: u16,
    pub error: LinkError,
}

/// Why a link is not made.
#[derive(Clone, Copy, PartialEq, Eq, Debug)]
pub enum NewLinkError {
    /// A capacity that this kind of link cannot have.
    Capacity,
    /// Want of memory.
    Memory,
}

impl fmt::Display for LinkError {
    fn fmt<W: fmt::Write>(&self, f: &mut fmt::Formatter<W>) -> fmt::Result {
        f.write_str(match self {
            LinkError::NotACell => "not a cell of 514 bytes",
            LinkError::Full => "as many cells wait as the link takes",
            LinkError::Empty => "no cell waits",
            LinkError::NoSuchLink => "no link has this number",
        })
    }
}

impl Error for LinkError {}

impl fmt::Display for LinkFault {
    fn fmt<W: fmt::Write>(&self, f: &mut fmt::Formatter<W>) -> fmt::Result {
        write!(f, "link {}: {}", self.at, self.error)
    }
}

impl Error for LinkFault {}

impl fmt::Display for NewLinkError {
    fn fmt<W: fmt::Write>(&self, f: &mut fmt::Formatter<W>) -> fmt::Result {
        f.write_str(match self {
            NewLinkError::Capacity => "no link of this kind has this capacity",
            NewLinkError::Memory => "out of memory",
        })
    }
}

impl Error for NewLinkError {}

impl From<AllocError> for NewLinkError {
    ghost from_gives = { λ _ e. e ≡ Memory };

    fn from(_error: AllocError) -> NewLinkError {
        Self::Memory
    }
}
