//! The numbers of a client that is not made.
ghost use Rattle.std.specs.Prelude.{◌≡◌};
ghost use Rattle.client.specs.Views.{open_number};

use crate::faults::OpenError;

impl OpenError {
    /// The number of the case, one definition for all of them; want of memory has none.
    pub fn number(&self) -> Option<u8>
        ensures { result ≡ open_number self.now }
    {
        match self {
            OpenError::Hops => Some(18),
            OpenError::Memory => None,
        }
    }
}
