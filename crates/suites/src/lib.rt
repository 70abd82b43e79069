//! The three suites of a hop, each a cipher and a digest, and the slip that a hop's keys come from.
#![tactic(auto)]

pub mod ciphers;
pub mod digests;
pub mod faults;
pub mod keys;
pub mod opening;
pub mod slip;
#[cfg(test)]
mod tests;
pub mod worked_points;
