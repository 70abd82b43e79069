//! The two kinds of step. Each changes one half of the payload by what the other half gives.
ghost use Rattle.std.specs.Prelude.{◌≡◌, ◌+◌, ◌≤◌, length, take, drop};
ghost use Rattle.aes_tables.specs.Words.{xors};
ghost use Rattle.aes.specs.KeyExpansion.{expanded};
ghost use Rattle.aes.specs.KeyStream.{streamed};
ghost use Rattle.lioness.specs.Steps.{left, left_step, right_step};

use aes::KeySchedule;
use aes_tables::xor_into;
use sha3::digest::sha3_256_of_two;

/// The 32 bytes from place `at` on.
pub(crate) fn part_at(bytes: &[u8], at: usize) -> [u8; 32]
    requires { at + 32 ≤ length bytes.now }
    ensures { result ≡ take 32 (drop at bytes.now) }
{
    <[u8; 32]>::try_from(&bytes[at..at + 32]).unwrap()
}

// L exclusive-or the key.
fn stream_key(key: &[u8; 32], payload: &[u8; 509]) -> [u8; 32]
    ensures { result ≡ xors (left payload.now) key.now }
{
    let mut left = part_at(payload, 0);
    xor_into(&mut left, key);
    left
}

// Exclusive-ors the key stream under the key, from its first byte on, into the bytes.
fn xor_stream_under(key: &[u8; 32], bytes: &mut [u8])
    ensures { bytes.new ≡ streamed 14 (expanded 8 key.now) 0 bytes.old }
{
    KeySchedule::new(key).xor_stream(0, bytes);
}

/// R becomes R exclusive-or the key stream under L exclusive-or the key.
pub(crate) fn change_right(key: &[u8; 32], payload: &mut [u8; 509])
    ensures { payload.new ≡ right_step key.now payload.old }
{
    let key = stream_key(key, payload);
    xor_stream_under(&key, &mut payload[32..509]);
}

/// L becomes L exclusive-or the hash of the key and R.
pub(crate) fn change_left(key: &[u8; 32], payload: &mut [u8; 509])
    ensures { payload.new ≡ left_step key.now payload.old }
{
    let hash = sha3_256_of_two(key, &payload[32..509]);
    xor_into(&mut payload[0..32], &hash);
}
