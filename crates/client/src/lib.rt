//! A client, alone or in a circuit, on payloads of 509 bytes that the host moves. As at a relay, tests come before changes, and a
//! refusal leaves payload and client as they were.
#![tactic(auto)]

mod acknowledging;
mod faults;
mod numbers;
mod opening;
mod parts;
mod posting;
mod receiving;
mod sending;
mod texts;

pub use faults::OpenError;
pub use parts::Client;
