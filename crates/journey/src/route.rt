//! The way outward of a circuit: the client's side of each hop, and the relays' own.
use anyhow::Context;
use cell::{Command, write_payload};
use crypto::cipher::Cipher;
use crypto::digest::Digest;
use hops::End;
use rows::Row;
use std::alloc::Global;
use wraps::{WrapError, wrap};

// The program `cells` has a `Route` of its own: what they share is three short methods, too little for a crate between them.

/// Both sides of each hop, the nearest first.
// Two lists and not one of pairs: the client's row is lent whole, to wrap for a hop.
#[derive(Drop)]
pub struct Route<C, D> {
    client: Row<C, D>,
    pub(crate) relays: Vec<End<C, D>>,
}

impl<C: Cipher + Drop, D: Digest + Drop> Route<C, D> {
    pub fn new(heap: Global) -> Route<C, D> {
        Route {
            client: Row::new(Vec::new(heap)),
            relays: Vec::new(heap),
        }
    }

    pub fn hops(&self) -> usize {
        self.relays.len()
    }

    /// One hop more, behind the others.
    pub fn add(&mut self, client: End<C, D>, relay: End<C, D>) -> anyhow::Result<()> {
        self.client.push(client).context("out of memory")?;
        self.relays.push(relay).context("out of memory")
    }

    /// A DATA payload for a hop, sealed and with its layers; the client's side moves on.
    pub fn seal(
        &mut self,
        hop: u16,
        stream: u16,
        data: &[u8],
        payload: &mut [u8],
    ) -> anyhow::Result<()> {
        let place = usize::from(hop)
            .checked_sub(1)
            .filter(|place| *place < self.client.len())
            .ok_or(WrapError::NoSuchHop)?;
        write_payload(payload, Command::Data, stream, data).context(
            "the text is longer than 498 bytes (6)",
        )?;
        let taken = wrap(&self.client, place, payload)?;
        self.client.advance(place, taken);
        Ok(())
    }
}
