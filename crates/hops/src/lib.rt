//! The end of one hop: how a payload is sealed and gets its layer, and how the end that it is for finds out.
#![tactic(auto)]

mod end;
mod recognition;
mod steps;

pub use end::End;
pub use recognition::check_is_zero;
