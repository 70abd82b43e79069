//! A relay, alone or in a circuit, on payloads of 509 bytes that the host moves. Each operation tests first, on what it does not
//! change, and then changes what it may: a refusal leaves payload and relay as they were. The operations with `room` are for a host
//! that passes payloads on over links: it says whether the link has room, and without room nothing changes, unless another refusal
//! comes first.
#![tactic(auto)]

mod opening;
mod parts;
mod receiving;
mod replying;

pub use parts::{Arrival, Relay};
