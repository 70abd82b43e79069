//! Cells for the hop behind a relay, until one passes the relay with two zero check bytes.
use crate::relay::{Fate, receive};
use crate::route::Route;
use anyhow::anyhow;
use cell::PAYLOAD_SIZE;
use crypto::cipher::Cipher;
use crypto::digest::Digest;

impl<C: Cipher + Drop, D: Digest + Drop> Route<C, D> {
    /// Sends at most `most` cells past relay `hop`. The one that looks recognised by its two check bytes alone must leave no trace:
    /// the next cell for that relay shows it.
    pub fn watch(&mut self, rt: &HostRuntime, hop: u16, most: u32) -> anyhow::Result<()> {
        if hop == 0 || usize::from(hop) >= self.hops() {
            return Err(anyhow!("the relay to watch has a hop behind it"));
        }
        let next = hop.saturating_add(1);
        println!(rt; "cells for hop {next}, until one has two zero check bytes at relay {hop}")?;
        for cell in 0..most {
            if cell > 0 && cell % 20_000 == 0 {
                println!(rt; "  {cell} cells passed")?;
            }
            if self.pass(hop, next, cell)? {
                println!(rt;
                    "  cell {cell}: relay {hop} sees two zero check bytes, finds another tag than its own, and passes it on"
                )?;
                println!(rt; "  cell {cell}: relay {next} recognises it")?;
                return self.send(rt, hop, 1, b"still recognised");
            }
        }
        println!(rt; "  none among {most} cells")?;
        Ok(())
    }

    // One cell to the hop `next`, behind; whether its check bytes were zero at relay `hop`.
    fn pass(&mut self, hop: u16, next: u16, cell: u32) -> anyhow::Result<bool> {
        let mut payload = [0u8; PAYLOAD_SIZE];
        self.seal(next, 1, &cell.to_be_bytes(), &mut payload)?;
        let mut by_chance = false;
        for (number, relay) in (1u16..).zip(&mut self.relays) {
            match receive(relay, &mut payload) {
                Fate::Recognised if number == next => return Ok(by_chance),
                Fate::Recognised => return Err(anyhow!("another relay took the cell")),
                Fate::PassingByChance if number == hop => by_chance = true,
                Fate::PassingByChance | Fate::Passing => {}
            }
        }
        Err(anyhow!("no relay recognised the cell (13)"))
    }
}
