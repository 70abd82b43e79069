//! How a client begins.
ghost use Rattle.std.specs.Prelude.{◌≡◌, ◌&&◌, replicate, MatchResult, ◌==◌, nat_le, nat_lt};
ghost use Rattle.model.specs.Flows.{fresh_flow};
ghost use Rattle.model.specs.Streams.{no_streams};
ghost use Rattle.rows.specs.Views.{row_len, row_seen};
ghost use Rattle.client.specs.Views.{client_seen, Opened};

use crate::faults::OpenError;
use crate::parts::Client;
use crypto::cipher::Cipher;
use crypto::digest::Digest;
use rows::Row;
use std::alloc::Global;
use streams::{Flow, Streams};

impl<C: Cipher + Drop, D: Digest + Drop> Client<C, D> {
    /// A client of 1 to 8 hops, the nearest first, with its ends as they are: those that send forward and those that receive backward.
    pub fn new(
        heap: Global,
        forward: Row<C, D>,
        backward: Row<C, D>,
    ) -> Result<Client<C, D>, OpenError>
        ensures { MatchResult result
            (λ e. client_seen D.Digest e ≡ record { forward = row_seen D.Digest forward; backward = row_seen D.Digest backward; flows = replicate (row_len forward) fresh_flow; streams = no_streams })
            (λ f. Opened (row_len forward) (row_len backward) f) }
    {
        let n = forward.len();
        if !is_circuit(n, backward.len()) {
            return Err(OpenError::Hops);
        }
        let flows = vec![in heap; Flow::fresh(); n]?;
        Ok(Client {
            forward,
            backward,
            flows,
            streams: Streams::new(),
        })
    }
}

impl<C: Cipher, D: Digest + Drop> Client<C, D> {
    /// How many hops there are.
    pub fn hops(&self) -> usize
        ensures { result ≡ row_len self.now.forward }
    {
        self.flows.len()
    }
}

// From 1 to 8 hops, with an end for each way. Comparisons and not `(1..=8).contains`, of whose answer the proof does not close.
fn is_circuit(forward: usize, backward: usize) -> bool
    ensures { result ≡ (nat_lt 0 forward && (nat_le forward 8 && backward == forward)) }
{
    forward > 0 && forward <= 8 && backward == forward
}
