//! A slip of each suite, opened: the tag and the enciphered payload are the published ones.
use crate::faults::{SlipError, SlipFault};
use crate::keys::WayKeys;
use crate::slip::Slip;
use crypto::cipher::Cipher;
use crypto::digest::Digest;
use std::alloc::Global;
use std::process::Abort;
use std::test::Fail;

// A slip whose byte i is i modulo 256.
fn slip(heap: Global, suite: u16, len: usize) -> Result<Slip, Fail> {
    let bytes = (0..len).map(|i| (i % 256) as u8).collect(heap)?;
    Ok(Slip::new(suite, bytes))
}

// BEGIN, stream 5, data 0x61.
fn payload_with(tag: [u8; 4]) -> [u8; 509] {
    let mut payload = [0u8; 509];
    payload[0] = 1;
    payload[4] = 5;
    payload[5..9].copy_from_slice(&tag);
    payload[10] = 1;
    payload[11] = 0x61;
    payload
}

// The first and the last four bytes of the payload with layer n, which is then removed.
fn covered(rt: &impl Abort, way: &WayKeys, n: u32, tag: [u8; 4]) -> [u8; 8] {
    assert_eq!(rt; way.digest.tag(&payload_with([0; 4])), tag);
    let plain = payload_with(tag);
    let mut payload = payload_with(tag);
    way.cipher.add(n, &mut payload);
    let mut ends = [0u8; 8];
    ends[..4].copy_from_slice(&payload[..4]);
    ends[4..].copy_from_slice(&payload[505..]);
    way.cipher.remove(n, &mut payload);
    assert_eq!(rt; payload, plain);
    ends
}

#[test]
fn opened(rt: HostRuntime) -> Result<(), Fail> {
    let one = slip(rt.alloc(), 1, 72)?.open(1)?;
    let two = slip(rt.alloc(), 2, 128)?.open(2)?;
    let three = slip(rt.alloc(), 3, 320)?.open(3)?;
    let sha1_tag = [0x3a, 0x02, 0xb6, 0x37];
    let sha3_tag = [0x5d, 0x2d, 0xab, 0xf3];
    assert_eq!(rt;
        covered(&rt, &one.forward, 16, sha1_tag),
        [0x62, 0xaf, 0x3c, 0xd7, 0x65, 0x95, 0x00, 0x62]
    );
    assert_eq!(rt;
        covered(&rt, &two.forward, 1, sha3_tag),
        [0xb0, 0x39, 0xea, 0x6d, 0x90, 0xf9, 0x4b, 0xa7]
    );
    assert_eq!(rt;
        covered(&rt, &three.forward, 1, sha3_tag),
        [0x10, 0x21, 0x7b, 0x4c, 0x69, 0xe1, 0xb0, 0x92]
    );
    Ok(())
}

// The number of the refusal, and the refusal.
fn refusal(slip: Slip, place: u16) -> Option<(u8, SlipFault)> {
    let fault = slip.open(place).err()?;
    Some((fault.number(), fault))
}

#[test]
fn refused(rt: HostRuntime) -> Result<(), Fail> {
    let due = |error, at| Some((18, SlipFault { at, error }));
    assert_eq!(rt;
        refusal(slip(rt.alloc(), 4, 72)?, 5),
        due(SlipError::Suite, 5)
    );
    assert_eq!(rt;
        refusal(slip(rt.alloc(), 0, 72)?, 2),
        due(SlipError::Suite, 2)
    );
    assert_eq!(rt;
        refusal(slip(rt.alloc(), 2, 127)?, 7),
        due(SlipError::Length, 7)
    );
    assert_eq!(rt;
        refusal(slip(rt.alloc(), 3, 128)?, 1),
        due(SlipError::Length, 1)
    );
    Ok(())
}

// The error and the fault print alike.
#[test]
fn printed(rt: HostRuntime) -> Result<(), Fail> {
    for (error, text) in [
        (SlipError::Suite, "suites are 1, 2 and 3 (18)"),
        (SlipError::Length, "the key has not the suite's length (18)"),
    ] {
        assert_eq!(rt; format!(in rt.alloc(); "{error}")?.as_str(), text);
        assert_eq!(rt; format!(in rt.alloc(); "{}", error.at(9))?.as_str(), text);
    }
    Ok(())
}
