//! Each kind of vector: what is computed, and whether it is what the vector says.
use crate::reading::{Fields, Stop};
use aes::{CounterMode, KeySchedule};
use crypto::cipher::Cipher;
use crypto::digest::Digest;
use fields::hex::decode;
use lioness::Lioness;
use sha_1::digest::sha1;
use sha_1::running::Sha1;
use sha3::digest::sha3_256;
use sha3::running::Sha3;
use std::alloc::Global;

/// Whether a line's vector is right. By a match: each kind reads fields of its own.
pub fn verdict(heap: Global, line: &str) -> Result<bool, Stop> {
    let mut parts = line.split(' ');
    let kind = parts.next();
    let fields = Fields { heap, parts };
    match kind {
        Some("aes") => aes(fields),
        Some("ctr") => ctr(fields),
        Some("lioness") => lioness(fields),
        Some("sha1") => whole(fields, |message, out| &sha1(message)[..] == out),
        Some("sha3") => whole(fields, |message, out| &sha3_256(message)[..] == out),
        Some("tag") => tag(fields),
        _ => Err(Stop::NoVector),
    }
}

// What a key of 16 or of 32 bytes makes.
fn keyed<T, F: FnOnce(&[u8; 16]) -> T, G: FnOnce(&[u8; 32]) -> T>(
    key: &[u8],
    by_128: F,
    by_256: G,
) -> Result<T, Stop>
    requires by_128 { F.IsAlwaysCallable by_128 }
    requires by_256 { G.IsAlwaysCallable by_256 }
{
    if let Ok(key) = <&[u8; 16]>::try_from(key) {
        return Ok(by_128(key));
    }
    let key = <&[u8; 32]>::try_from(key)?;
    Ok(by_256(key))
}

fn aes(mut fields: Fields) -> Result<bool, Stop> {
    let key = fields.bytes("key=")?;
    let (plain, out) = fields.in_and_out()?;
    let block = <&[u8; 16]>::try_from(plain.as_slice())?;
    let schedule = keyed(key.as_slice(), KeySchedule::new, KeySchedule::new)?;
    Ok(&schedule.encipher(block)[..] == out.as_slice())
}

// A layer added gives `out`, and removed again gives the payload back.
fn layer<C: Cipher>(cipher: &C, n: u32, mut payload: Vec<u8>, out: &[u8]) -> Result<bool, Stop> {
    if payload.len() != 509 {
        return Err(Stop::NoVector);
    }
    let before = payload.clone()?;
    cipher.add(n, &mut payload);
    if payload.as_slice() != out {
        return Ok(false);
    }
    cipher.remove(n, &mut payload);
    Ok(payload.as_slice() == before.as_slice())
}

fn ctr(mut fields: Fields) -> Result<bool, Stop> {
    let key = fields.bytes("key=")?;
    let n = fields.number("layer=")?;
    let (payload, out) = fields.in_and_out()?;
    let cipher = keyed(key.as_slice(), CounterMode::new, CounterMode::new)?;
    layer(&cipher, n, payload, out.as_slice())
}

fn lioness(mut fields: Fields) -> Result<bool, Stop> {
    let key = fields.bytes("key=")?;
    let (payload, out) = fields.in_and_out()?;
    let key = <&[u8; 128]>::try_from(key.as_slice())?;
    layer(&Lioness::new(key), 0, payload, out.as_slice())
}

// The hash of a whole message.
fn whole<F: FnOnce(&[u8], &[u8]) -> bool>(fields: Fields, hashes_to: F) -> Result<bool, Stop>
    requires { F.IsAlwaysCallable hashes_to }
{
    let (message, out) = fields.in_and_out()?;
    Ok(hashes_to(message.as_slice(), out.as_slice()))
}

fn tag(mut fields: Fields) -> Result<bool, Stop> {
    let heap = fields.heap;
    let suite = fields.number("suite=")?;
    let seed = fields.bytes("seed=")?;
    let cells = fields.text("cells=")?;
    let out = fields.out()?;
    let found = match suite {
        1 => last_tag(heap, Sha1::seeded(seed.as_slice()), cells)?,
        2 | 3 => last_tag(heap, Sha3::seeded(seed.as_slice()), cells)?,
        _ => return Err(Stop::NoVector),
    };
    Ok(&found[..] == out.as_slice())
}

// Asked of the digits, so that no more than a payload is ever decoded.
fn payload(heap: Global, digits: &[u8]) -> Result<Vec<u8>, Stop> {
    if digits.len() != 2 * 509 {
        return Err(Stop::NoVector);
    }
    decode(heap, digits)?.ok_or(Stop::NoVector)
}

// All payloads but the last are taken; the tag of the last is asked, both alone and as a trial.
fn last_tag<D: Digest + Drop>(heap: Global, mut digest: D, cells: &[u8]) -> Result<[u8; 4], Stop> {
    let mut cells = cells.split(|c| *c == b',');
    let mut last = payload(heap, cells.next().unwrap_or(&[]))?;
    for cell in cells {
        digest.take(last.as_slice());
        last = payload(heap, cell)?;
    }
    let tag = digest.tag(last.as_slice());
    let trial = digest.trial(last.as_slice());
    if tag != trial.tag {
        return Err(Stop::NoVector);
    }
    Ok(tag)
}
