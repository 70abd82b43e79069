//! One message, from the client to its hop, each step printed.
use crate::relay::{Fate, receive};
use crate::route::Route;
use anyhow::{Context, anyhow};
use cell::{PAYLOAD_SIZE, PayloadReader};
use crypto::cipher::Cipher;
use crypto::digest::Digest;
use fields::hex::Hex;

impl<C: Cipher + Drop, D: Digest + Drop> Route<C, D> {
    /// Sends a message and carries it from relay to relay until one recognises it.
    pub fn send(
        &mut self,
        rt: &HostRuntime,
        hop: u16,
        stream: u16,
        data: &[u8],
    ) -> anyhow::Result<()> {
        let mut payload = [0u8; PAYLOAD_SIZE];
        println!(rt;
            "DATA of {} bytes on stream {stream} for hop {hop}",
            data.len()
        )?;
        self.seal(hop, stream, data, &mut payload)?;
        let begins = Hex(&payload[0..16]);
        println!(rt;
            "  client seals it and adds the layers of hops {hop} to 1; on link 1 it begins {begins}"
        )?;
        for (number, relay) in (1u16..).zip(&mut self.relays) {
            let fate = receive(relay, &mut payload);
            let check = Hex(&payload[1..3]);
            println!(rt; "  relay {number} removes its layer; its check bytes are {check}")?;
            match fate {
                Fate::Recognised => return hand_out(rt, number, &payload),
                Fate::Passing => println!(rt; "  relay {number} passes it on")?,
                Fate::PassingByChance => println!(rt;
                    "  relay {number} finds another tag than its own and passes it on"
                )?,
            }
        }
        Err(anyhow!("no relay recognised the cell (13)"))
    }
}

// Command, stream and data as the relay reads them.
fn hand_out(rt: &HostRuntime, number: u16, payload: &[u8]) -> anyhow::Result<()> {
    let reader = PayloadReader::new(payload).context("the payload is not 509 bytes")?;
    let part = reader
        .data_part()
        .context("the length field says more than 498 (14)")?;
    let data = std::str::from_utf8(part.bytes).unwrap_or("(not text)");
    println!(rt;
        "  relay {number} recognises it and hands out {} bytes on stream {}: {data}",
        part.len,
        reader.stream()
    )?;
    Ok(())
}
