//! The lines of the text: slips open hops, the others send.
use crate::route::Route;
use anyhow::{Context, anyhow};
use fields::decimal::decimal;
use fields::field::{behind, short};
use fields::hex::decode;
use hops::End;
use std::alloc::Global;
use suites::keys::{SuiteCipher, SuiteDigest};
use suites::slip::Slip;

#[derive(Drop)]
pub struct Script {
    heap: Global,
    route: Route<SuiteCipher, SuiteDigest>,
}

impl Script {
    pub fn new(heap: Global) -> Script {
        Script {
            heap,
            route: Route::new(heap),
        }
    }

    /// Does what a line says.
    pub fn line(&mut self, rt: &HostRuntime, line: &str) -> anyhow::Result<()> {
        match line.split(' ').next() {
            Some("send") => self.send_line(rt, line),
            Some("watch") => self.watch_line(rt, line),
            _ => self.slip_line(rt, line),
        }
    }

    // Client and relay each open the slip: both know it, and neither shares its keys.
    fn slip_line(&mut self, rt: &HostRuntime, line: &str) -> anyhow::Result<()> {
        let mut parts = line.split(' ');
        let place = short(parts.next(), "slip=")?;
        let suite = short(parts.next(), "suite=")?;
        let key = parts.next().context("the key is missing")?;
        let hops = self.route.hops();
        if parts.next().is_some() || hops >= 8 || usize::from(place) != hops + 1 {
            return Err(anyhow!(
                "slips are numbered outward from 1 to 8, and nothing follows the key"
            ));
        }
        let client = self.opened(place, suite, key)?;
        let relay = self.opened(place, suite, key)?;
        self.route.add(client, relay)?;
        println!(rt; "hop {place} opened with suite {suite}")?;
        Ok(())
    }

    // Key, text and cells by `behind` and not by `fields::field`: what they are refused with reads differently.
    fn opened(
        &self,
        place: u16,
        suite: u16,
        key: &str,
    ) -> anyhow::Result<End<SuiteCipher, SuiteDigest>> {
        let digits = behind(key.as_bytes(), b"key=").context("the third field is not key=")?;
        let bytes = decode(self.heap, digits)?.context("the key is not lower-case hexadecimal")?;
        let keys = Slip::new(suite, bytes).open(place)?;
        Ok(End::new(keys.forward.cipher, keys.forward.digest))
    }

    fn send_line(&mut self, rt: &HostRuntime, line: &str) -> anyhow::Result<()> {
        let mut parts = line.splitn(4, ' ').skip(1);
        let hop = short(parts.next(), "hop=")?;
        let stream = short(parts.next(), "stream=")?;
        let text = parts.next().context("the text is missing")?;
        let data = behind(text.as_bytes(), b"text=").context("the last field is not text=")?;
        self.route.send(rt, hop, stream, data)
    }

    fn watch_line(&mut self, rt: &HostRuntime, line: &str) -> anyhow::Result<()> {
        let mut parts = line.split(' ').skip(1);
        let hop = short(parts.next(), "hop=")?;
        let cells = parts.next().context("the number of cells is missing")?;
        let digits = behind(cells.as_bytes(), b"cells=").context("the last field is not cells=")?;
        let most = decimal(digits, 10_000_000).context(
            "cells are a decimal number up to 10000000",
        )?;
        self.route.watch(rt, hop, most)
    }
}
