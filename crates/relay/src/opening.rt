//! How a relay begins.
ghost use Rattle.std.specs.Prelude.{◌≡◌, MatchResult};
ghost use Rattle.model.specs.Flows.{fresh_flow};
ghost use Rattle.model.specs.Streams.{no_streams};
ghost use Rattle.hops.specs.Views.{end_seen};
ghost use Rattle.messages.specs.Faults.{fault_of};
ghost use Rattle.relay.specs.Views.{relay_seen};
ghost use Rattle.relay.specs.Answers.{Open};

use crate::parts::Relay;
use crypto::cipher::Cipher;
use crypto::digest::Digest;
use hops::End;
use messages::{EndError, EndFault};
use streams::{Flow, Streams};

impl<C: Cipher + Drop, D: Digest + Drop> Relay<C, D> {
    /// A relay of a hop, 1 to 8, with its ends as they are.
    pub fn new(
        hop: u16,
        last: bool,
        forward: End<C, D>,
        backward: End<C, D>,
    ) -> Result<Relay<C, D>, EndFault>
        ensures { MatchResult result
            (λ e. Open hop e.hop × (e.last ≡ last) × (relay_seen D.Digest e ≡ record { forward = end_seen D.Digest forward; backward = end_seen D.Digest backward; flow = fresh_flow; streams = no_streams }))
            (λ f. (f ≡ fault_of 7 hop) × (Open hop hop → ⊥)) }
    {
        // Not `(1..=8).contains(&hop)`, of whose answer the proof does not close.
        if hop == 0 || hop > 8 {
            return Err(EndError::NoSuchHop.at(hop));
        }
        Ok(Relay {
            hop,
            last,
            forward,
            backward,
            flow: Flow::fresh(),
            streams: Streams::new(),
        })
    }
}
