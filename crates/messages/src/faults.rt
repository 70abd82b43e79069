//! What an end refuses, and where.
ghost use Rattle.std.specs.Prelude.{◌≡◌};
ghost use Rattle.messages.specs.declared.faults.EndError.TheVariants.{Cell};

use cell::CellError;

/// Each case has one number, 1 to 15.
#[derive(Clone, Copy, Debug, PartialEq, Eq)]
pub enum EndError {
    /// What reading the payload was refused for: it is not 509 bytes.
    Cell(CellError),
    /// No command that this end may send.
    Command,
    /// More than 498 bytes of data.
    DataLength,
    NoSuchHop,
    /// The command's stream rule is broken.
    Stream,
    /// The window is used up.
    Window,
    /// The messages of the hop, or the layers of an end, are used up.
    Spent,
    /// A nearer hop would take the payload for its own.
    Coincidence,
    /// Fewer than 100 DATA to acknowledge.
    NotDue,
    /// No hop's test passed.
    Unrecognised,
    /// The test passed, and the payload is none that its sender may send.
    Malformed,
    /// More DATA than the window, or more acknowledgements than DATA.
    Overrun,
}

/// The case and its place: the hop, or 0 for a payload of another length. (0 and no `Option`: each refusal has a place in
/// docs/refusals.md, 0 where there is no other. A link's and a slip's fault are alike, each whole in its
/// layer: a generic one would need a crate below all three, and its number a trait.)
#[derive(Clone, Copy, Debug, PartialEq, Eq)]
pub struct EndFault {
    pub at: u16,
    pub error: EndError,
}

/// The fault of a payload that is not 509 bytes.
pub const LENGTH: EndFault = EndFault {
    at: 0,
    error: EndError::Cell(CellError::Length),
};

impl EndError {
    /// The fault of this case at a hop.
    pub fn at(self, hop: u16) -> EndFault
        ensures { result ≡ record { at = hop; error = self } }
    {
        EndFault {
            at: hop,
            error: self,
        }
    }
}

impl From<CellError> for EndError {
    ghost from_gives = { λ c e. e ≡ Cell c };

    fn from(error: CellError) -> EndError {
        EndError::Cell(error)
    }
}

/// A payload that cannot be read or written is of no hop.
impl From<CellError> for EndFault {
    ghost from_gives = { λ c f. f ≡ record { at = 0; error = Cell c } };

    fn from(error: CellError) -> EndFault {
        EndError::from(error).at(0)
    }
}
