//! One way of a circuit: the client's side and the relays' side of each hop, the nearest first.
use crate::line::CellLine;
use crate::tally::Tally;
use anyhow::Context;
use crypto::cipher::Cipher;
use crypto::digest::Digest;
use hops::End;
use rows::Row;
use std::alloc::Global;
use wraps::wrap;

// Two lists and not one of pairs: the client's row is lent whole, to wrap for a hop or to find one. (Why journey has a `Route` of its own,
// it says.)
#[derive(Drop)]
pub struct Route<C, D> {
    client: Row<C, D>,
    relays: Vec<End<C, D>>,
}

impl<C: Cipher + Drop, D: Digest + Drop> Route<C, D> {
    pub fn new(heap: Global) -> Route<C, D> {
        Route {
            client: Row::new(Vec::new(heap)),
            relays: Vec::new(heap),
        }
    }

    pub fn hops(&self) -> usize {
        self.relays.len()
    }

    /// One hop more, behind the others.
    pub fn add(&mut self, client: End<C, D>, relay: End<C, D>) -> anyhow::Result<()> {
        self.client.push(client).context("out of memory")?;
        self.relays.push(relay).context("out of memory")
    }

    /// The client wraps the cell, and each relay removes its layer, until the cell's own recognises it.
    pub fn carry(&mut self, cell: &CellLine, tally: &mut Tally) -> anyhow::Result<()> {
        let mut payload = cell.plain.clone()?;
        let taken = wrap(&self.client, cell.place, &mut payload).context(
            "the client cannot send it to this hop",
        )?;
        self.client.advance(cell.place, taken);
        tally.link(&payload, &cell.sent);
        for relay in self.relays.iter_mut().take(cell.place) {
            relay.remove_layer(&mut payload);
            if relay.recognise(&payload).is_some() {
                tally.differs();
            }
            relay.move_on();
        }
        let relay = self
            .relays
            .get_mut(cell.place)
            .context("there is no such hop")?;
        relay.remove_layer(&mut payload);
        match relay.recognise(&payload) {
            Some(taken) => {
                relay.take_on(taken);
                tally.recognised(&payload, &cell.sealed);
            }
            None => {
                relay.move_on();
                tally.differs();
            }
        }
        Ok(())
    }

    /// The cell's relay seals it, nearer relays add their layers, and the client finds out from which hop it is.
    pub fn bring(&mut self, cell: &CellLine, tally: &mut Tally) -> anyhow::Result<()> {
        let mut payload = cell.plain.clone()?;
        let relay = self
            .relays
            .get_mut(cell.place)
            .context("there is no such hop")?;
        let taken = relay
            .seal(&mut payload)
            .context("a payload is not 509 bytes")?;
        relay.add_layer(&mut payload);
        relay.take_on(taken);
        tally.link(&payload, &cell.sent);
        for nearer in self.relays[..cell.place].iter_mut().rev() {
            nearer.add_layer(&mut payload);
            nearer.move_on();
        }
        if let Some(arrived) = &cell.arrived {
            tally.link(&payload, arrived);
        }
        match self.client.seek(&mut payload) {
            Some((place, taken)) => {
                if place == cell.place {
                    tally.recognised(&payload, &cell.sealed);
                } else {
                    tally.differs();
                }
                self.client.advance(place, taken);
            }
            None => tally.differs(),
        }
        Ok(())
    }
}
