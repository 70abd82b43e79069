//! What hashes over blocks have in common: the unfinished block, and the law that bytes taken
//! one after the other give what their blocks give.
#![tactic(auto)]

pub mod buffer;
pub mod feeding;
