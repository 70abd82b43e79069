//! What opening a slip is refused for, and which slip it was.
ghost use Rattle.std.specs.Prelude.{◌≡◌};
ghost use Rattle.suites.specs.Faults.{error_number, slip_number};

use std::error::Error;
use std::fmt;

#[derive(Clone, Copy, Debug, PartialEq, Eq)]
pub enum SlipError {
    /// No suite has this number.
    Suite,
    /// The bytes are not as many as the suite's.
    Length,
}

/// A refusal, with the slip's place.
// A place beside an error, as links and messages have it too: one generic type would need a crate below all three.
#[derive(Clone, Copy, Debug, PartialEq, Eq)]
pub struct SlipFault {
    pub at: u16,
    pub error: SlipError,
}

impl SlipError {
    fn number(self) -> u8
        ensures { result ≡ error_number self }
    {
        match self {
            SlipError::Suite | SlipError::Length => 18,
        }
    }

    /// The refusal of the slip at a place.
    pub(crate) fn at(self, place: u16) -> SlipFault
        ensures place { result.at ≡ place }
        ensures error { result.error ≡ self }
    {
        SlipFault {
            at: place,
            error: self,
        }
    }
}

impl SlipFault {
    /// The number of the refusal.
    pub fn number(&self) -> u8
        ensures { result ≡ slip_number self.now }
    {
        self.error.number()
    }
}

impl fmt::Display for SlipError {
    fn fmt<W: fmt::Write>(&self, f: &mut fmt::Formatter<W>) -> fmt::Result {
        let text = match self {
            SlipError::Suite => "suites are 1, 2 and 3",
            SlipError::Length => "the key has not the suite's length",
        };
        write!(f, "{text} ({})", self.number())
    }
}

impl Error for SlipError {}

impl fmt::Display for SlipFault {
    fn fmt<W: fmt::Write>(&self, f: &mut fmt::Formatter<W>) -> fmt::Result {
        write!(f, "{}", self.error)
    }
}

impl Error for SlipFault {}
