//! SHA3-256 (FIPS 202) as a running digest, of a whole message, and of a message in two parts.
#![tactic(auto)]

pub mod digest;
pub mod permutation;
pub mod planes;
pub mod running;
pub mod sponge;
