//! Times a relay's work on one cell for each suite: a passing cell costs one layer, a delivered one also its tag, the
//! comparison and the moved digest. Checksums go to standard output, nanoseconds a cell to standard error.
#![tactic(auto)]

use anyhow::anyhow;
use cell::{PayloadReader, clear_tag};
use crypto::cipher::Cipher;
use crypto::digest::Digest;
use fields::decimal::decimal;
use fields::hex::Hex;
use std::alloc::Global;
use std::time::Instant;
use std::{array, env};
use suites::keys::WayKeys;
use suites::slip::Slip;

const USAGE: &str = "usage: relay_bench COUNT (cells for each suite, 1 to 100000000)";

fn main(rt: HostRuntime) -> anyhow::Result<()> {
    run(&rt)
}

fn count(rt: &HostRuntime) -> anyhow::Result<u32> {
    env::args(rt)?
        .nth(1)
        .and_then(|word| decimal(word.as_bytes(), 100_000_000))
        .ok_or(anyhow!(USAGE))
}

// Made-up key material: byte i is 11 i + 5.
// (`map_err` and not `context`: the runtime prints an error with all that it holds.)
fn keys(heap: Global, suite: u16, length: u32) -> anyhow::Result<WayKeys> {
    let bytes = (0..length)
        .map(|i| (i.wrapping_mul(11).wrapping_add(5) % 256) as u8)
        .collect(heap)
        .map_err(|_| anyhow!("out of memory"))?;
    let keys = Slip::new(suite, bytes)
        .open(1)
        .map_err(|_| anyhow!("the slip does not open"))?;
    Ok(keys.forward)
}

fn start() -> [u8; 509] {
    array::from_fn(|i| (i.wrapping_mul(7).wrapping_add(3) % 256) as u8)
}

fn passing<C: Cipher>(rt: &HostRuntime, suite: u16, cipher: &C, count: u32) -> anyhow::Result<()> {
    let mut payload = start();
    let clock = Instant::now(rt)?;
    for n in 0..count {
        cipher.remove(n, &mut payload);
    }
    let spent = clock.elapsed(rt)?.as_nanos() / count.max(1) as u128;
    let sum = Hex(&payload[0..8]);
    println!(rt; "suite={suite} passing {sum}")?;
    eprintln!(rt; "suite={suite} passing {spent}")?;
    Ok(())
}

// The payload with its tag zero, as it is hashed. (As `hops` has it for itself, on which this program does not stand.)
fn unsealed(payload: &[u8; 509]) -> [u8; 509] {
    let mut copy = *payload;
    clear_tag(&mut copy).unwrap();
    copy
}

// A loop of its own beside that of `passing`: a delivered cell hands the moved digest on to the next one. Its matches are counted in
// the same pass.
fn delivered<C: Cipher, D: Digest + Drop>(
    rt: &HostRuntime,
    suite: u16,
    cipher: &C,
    mut digest: D,
    count: u32,
) -> anyhow::Result<()> {
    let mut payload = start();
    let mut tag: u32 = 0;
    let mut matches: u32 = 0;
    let clock = Instant::now(rt)?;
    for n in 0..count {
        cipher.remove(n, &mut payload);
        let trial = digest.trial(&unsealed(&payload));
        tag = u32::from_be_bytes(trial.tag);
        if let Ok(reader) = PayloadReader::new(&payload)
            && u32::from_be_bytes(reader.tag()) == tag
        {
            matches = matches.saturating_add(1);
        }
        digest = trial.taken;
    }
    let spent = clock.elapsed(rt)?.as_nanos() / count.max(1) as u128;
    println!(rt; "suite={suite} delivered {tag:08x}")?;
    eprintln!(rt; "suite={suite} delivered {spent}")?;
    if matches > 0 {
        eprintln!(rt; "{matches} tags matched")?;
    }
    Ok(())
}

fn run(rt: &HostRuntime) -> anyhow::Result<()> {
    let count = count(rt)?;
    let heap = rt.alloc();
    for (suite, length) in [(1u16, 72u32), (2, 128), (3, 320)] {
        passing(rt, suite, &keys(heap, suite, length)?.cipher, count)?;
        let way = keys(heap, suite, length)?;
        delivered(rt, suite, &way.cipher, way.digest, count)?;
    }
    Ok(())
}
