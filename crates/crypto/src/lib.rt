//! What a circuit needs of a cipher and of a digest, and no more: code above is proved once,
//! from these meanings, for every cipher and every digest.
#![tactic(auto)]

pub mod cipher;
pub mod digest;
