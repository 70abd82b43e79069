//! SHA-1 (FIPS 180-4) as a running digest, and of a whole message.
#![tactic(auto)]

pub mod block;
pub mod digest;
pub mod laws;
pub mod running;
pub mod words;
