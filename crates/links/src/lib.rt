//! Links between hops: lines of waiting cells, of two kinds, and links in a row.
#![tactic(auto)]

mod byte_link;
mod cell_link;
mod fault;
mod link;
mod numbers;
mod row;
mod sizes;

pub use byte_link::ByteLink;
pub use cell_link::CellLink;
pub use fault::{LinkError, LinkFault, NewLinkError};
pub use link::Link;
pub use row::{clear_all, oldest, pass_on};

#[cfg(test)]
mod tests;
