//! The hops of one suite, and the cells that go through them.
use crate::line::{CellLine, SlipLine};
use crate::route::Route;
use crate::tally::Tally;
use anyhow::{Context, anyhow};
use cell::Way;
use crypto::cipher::Cipher;
use hops::End;
use std::alloc::Global;
use suites::keys::{HopKeys, SuiteCipher, SuiteDigest};
use suites::slip::Slip;

#[derive(Drop)]
pub struct Circuit {
    pub suite: u16,
    pub tally: Tally,
    forward: Route<SuiteCipher, SuiteDigest>,
    backward: Route<SuiteCipher, SuiteDigest>,
    cells: u16,
}

impl Circuit {
    pub fn new(heap: Global, suite: u16) -> Circuit {
        Circuit {
            suite,
            tally: Tally::default(),
            forward: Route::new(heap),
            backward: Route::new(heap),
            cells: 0,
        }
    }

    /// Client and relay each open the slip.
    pub fn add(&mut self, slip: SlipLine) -> anyhow::Result<()> {
        let SlipLine { suite, hop, key } = slip;
        if suite != self.suite
            || self.cells != 0
            || usize::from(hop) != self.forward.hops().saturating_add(1)
        {
            return Err(anyhow!("a suite's slips come first, numbered from 1"));
        }
        let client = opened(suite, hop, key.clone()?)?;
        let relay = opened(suite, hop, key)?;
        self.forward.add(
            End::new(client.forward.cipher, client.forward.digest),
            End::new(relay.forward.cipher, relay.forward.digest),
        )?;
        self.backward.add(
            End::new(client.backward.cipher, client.backward.digest),
            End::new(relay.backward.cipher, relay.backward.digest),
        )
    }

    /// Sends a cell on its way; how much of it differs.
    pub fn run(&mut self, cell: &CellLine) -> anyhow::Result<u32> {
        if cell.suite != self.suite || cell.n != self.cells {
            return Err(anyhow!("a suite's cells are numbered from 0"));
        }
        self.cells = self.cells.saturating_add(1);
        let before = self.tally.differences();
        self.tally.cell(cell.way);
        match cell.way {
            Way::Forward => self.forward.carry(cell, &mut self.tally)?,
            Way::Backward => self.backward.bring(cell, &mut self.tally)?,
        }
        Ok(self.tally.differences().saturating_sub(before))
    }
}

fn opened(suite: u16, hop: u16, key: Vec<u8>) -> anyhow::Result<HopKeys> {
    Slip::new(suite, key)
        .open(hop)
        .context("there is no such suite, or the key has not its length")
}
