//! A payload sealed for the end of one hop, and wrapped in the layers of every hop up to it.
#![tactic(auto)]

mod error;
mod wrapping;

pub use error::WrapError;
pub use wrapping::wrap;
