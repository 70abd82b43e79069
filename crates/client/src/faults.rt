//! Why no client is made.
ghost use Rattle.std.specs.Prelude.{◌≡◌};
ghost use Rattle.client.specs.declared.faults.OpenError.TheVariants.{Memory};

use std::alloc::AllocError;

#[derive(Clone, Copy, Debug, PartialEq, Eq)]
pub enum OpenError {
    /// Not 1 to 8 hops, or not as many ends backward as forward.
    Hops,
    Memory,
}

impl From<AllocError> for OpenError {
    ghost from_gives = { λ _ e. e ≡ Memory };

    fn from(_error: AllocError) -> OpenError {
        OpenError::Memory
    }
}
