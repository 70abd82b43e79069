//! The numbers of the refusals.
ghost use Rattle.std.specs.Prelude.{◌≡◌};
ghost use Rattle.messages.specs.Faults.{error_number, fault_number, NumbersStand};

use crate::faults::{EndError, EndFault};

impl EndError {
    // One definition for all cases.
    pub(crate) fn number(self) -> u8
        ensures { result ≡ error_number self }
    {
        match self {
            EndError::Cell(error) => error.number(),
            EndError::Command => 5,
            EndError::DataLength => 6,
            EndError::NoSuchHop => 7,
            EndError::Stream => 8,
            EndError::Window => 9,
            EndError::Spent => 10,
            EndError::Coincidence => 11,
            EndError::NotDue => 12,
            EndError::Unrecognised => 13,
            EndError::Malformed => 14,
            EndError::Overrun => 15,
        }
    }
}

impl EndFault {
    /// The number of the case.
    pub fn number(&self) -> u8
        ensures number { result ≡ fault_number self.now }
        ensures stand { NumbersStand }
    {
        self.error.number()
    }
}
