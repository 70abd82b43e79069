//! A relay, and what it answers.
use hops::End;
use messages::Delivery;
use streams::{Flow, Streams};

/// The end that receives forward, the end that sends backward, what it counts, and its streams.
// No `impl Model`: what a relay means has the digest's ghost State in it, which a model's Value cannot name. So it is with a client.
#[derive(Drop)]
pub struct Relay<C, D> {
    pub(crate) hop: u16,
    pub(crate) last: bool,
    pub(crate) forward: End<C, D>,
    pub(crate) backward: End<C, D>,
    pub(crate) flow: Flow,
    pub(crate) streams: Streams,
}

/// What became of a payload that a relay received.
#[derive(Clone, Copy, Debug, PartialEq, Eq)]
pub enum Arrival {
    /// For this relay.
    Delivered(Delivery),
    /// To be passed on to the next relay.
    Passed,
    /// To be passed on, and the host had no room for it: nothing changed.
    Held,
}
