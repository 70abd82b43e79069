//! What an end keeps of its streams and, for each hop, of its windows: plain records, no secrets.
#![tactic(auto)]

mod flow;
mod mark;
mod receiving;
mod record;
mod sending;
mod start;
mod table;
mod types;

pub use types::{Effect, Flow, Mark, StreamRecord, StreamState, Streams};

#[cfg(test)]
mod tests;
