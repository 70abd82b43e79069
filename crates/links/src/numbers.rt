//! The numbers that stand for a link's refusals.
ghost use Rattle.std.specs.Prelude.{◌≡◌};
ghost use Rattle.links.specs.Numbers.{link_error_number, link_fault_number};

use crate::fault::{LinkError, LinkFault};

impl LinkError {
    /// The number of the refusal in docs/refusals.md.
    pub fn number(&self) -> u8
        ensures { result ≡ link_error_number self.now }
    {
        match self {
            LinkError::NotACell => 1,
            LinkError::Full => 3,
            LinkError::Empty => 4,
            LinkError::NoSuchLink => 7,
        }
    }
}

impl LinkFault {
    /// The number of the refusal in docs/refusals.md.
    pub fn number(&self) -> u8
        ensures { result ≡ link_fault_number self.now }
    {
        self.error.number()
    }
}
