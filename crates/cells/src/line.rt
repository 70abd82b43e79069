//! The lines of a file: slips, and cells in the order in which they were sent.
use anyhow::{Context, anyhow};
use cell::{PAYLOAD_SIZE, Way, set_tag};
use fields::field::{bytes, end, short, text};
use std::alloc::Global;

/// `suite=S slip=K key=HEX`
#[derive(Drop)]
pub struct SlipLine {
    pub suite: u16,
    pub hop: u16,
    pub key: Vec<u8>,
}

/// `suite=S n=N way=W hop=K plain=HEX .. digest20=HEX`, with the links between.
#[derive(Drop)]
pub struct CellLine {
    pub suite: u16,
    pub n: u16,
    pub way: Way,
    /// The place of its hop, 0 for hop 1.
    pub place: usize,
    pub plain: Vec<u8>,
    /// As its sender puts it on its own link: the client on link 1, a relay on the link of its hop.
    pub sent: Vec<u8>,
    /// As it stands on link 1 before the client, where a farther hop sent it.
    pub arrived: Option<Vec<u8>>,
    /// With the tag that the sender's digest gave it.
    pub sealed: Vec<u8>,
}

pub fn is_slip(line: &str) -> bool {
    line.split(' ')
        .nth(1)
        .is_some_and(|part| part.starts_with("slip="))
}

pub fn slip_line(heap: Global, line: &str) -> anyhow::Result<SlipLine> {
    let mut parts = line.split(' ');
    let suite = short(parts.next(), "suite=")?;
    let hop = short(parts.next(), "slip=")?;
    let key = bytes(heap, parts.next(), "key=")?;
    end(parts.next())?;
    Ok(SlipLine { suite, hop, key })
}

pub fn cell_line(heap: Global, line: &str) -> anyhow::Result<CellLine> {
    let mut parts = line.split(' ');
    let suite = short(parts.next(), "suite=")?;
    let n = short(parts.next(), "n=")?;
    let way = way_of(text(parts.next(), "way=")?)?;
    let hop = short(parts.next(), "hop=")?;
    let place = usize::from(hop)
        .checked_sub(1)
        .context("hops are numbered from 1")?;
    let plain = payload(heap, parts.next(), "plain=")?;
    let far = matches!(way, Way::Backward) && hop > 1;
    let own = if far { hop } else { 1 };
    let link = format!(in heap; "link{own}=")?;
    let sent = payload(heap, parts.next(), link.as_str())?;
    let arrived = if far {
        Some(payload(heap, parts.next(), "link1=")?)
    } else {
        None
    };
    let digest = bytes(heap, parts.next(), "digest20=")?;
    end(parts.next())?;
    let sealed = with_tag(plain.clone()?, digest.as_slice())?;
    Ok(CellLine {
        suite,
        n,
        way,
        place,
        plain,
        sent,
        arrived,
        sealed,
    })
}

fn payload(heap: Global, part: Option<&str>, name: &str) -> anyhow::Result<Vec<u8>> {
    let payload = bytes(heap, part, name)?;
    if payload.len() != PAYLOAD_SIZE {
        return Err(anyhow!("a payload is not 509 bytes"));
    }
    Ok(payload)
}

// No `TryFrom`: `Way` is of the crate `cell`, and the letters are this program's.
fn way_of(text: &[u8]) -> anyhow::Result<Way> {
    match text {
        b"f" => Ok(Way::Forward),
        b"b" => Ok(Way::Backward),
        _ => Err(anyhow!("a way is f or b")),
    }
}

// The tag is the first four of the digest's 20 bytes.
fn with_tag(mut payload: Vec<u8>, digest: &[u8]) -> anyhow::Result<Vec<u8>> {
    let [a, b, c, d, ..] = <[u8; 20]>::try_from(digest).context("a digest is not 20 bytes")?;
    set_tag(&mut payload, [a, b, c, d]).context("a payload is not 509 bytes")?;
    Ok(payload)
}
