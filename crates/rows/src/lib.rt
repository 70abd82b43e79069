//! The ends of hops in a row, the nearest hop's first: which of them a payload is for, and how they move on.
#![tactic(auto)]

mod ends;
mod row;
#[cfg(test)]
mod tests;

pub use ends::{advance, seek, worn_at, worn_out};
pub use row::Row;
