//! KeyExpansion of FIPS 197, for keys of Nk = 4 and Nk = 8 words.
ghost use Rattle.std.specs.Prelude.{◌≡◌, ◌+◌, ◌*◌, ◌≤◌, ◌⊎◌, length};
ghost use Rattle.aes.specs.KeyExpansion.{expanded, key_words, rcon, rot_word, sub_word, temp, word_at};

use super::KeySchedule;
use super::key::AesKey;
use aes_tables::{power_of_two, sub_byte};

fn sub_word(w: u32) -> u32
    ensures { result ≡ sub_word w }
{
    u32::from_be_bytes(w.to_be_bytes().map(sub_byte))
}

fn rot_word(w: u32) -> u32
    ensures { result ≡ rot_word w }
{
    w.rotate_left(8)
}

fn round_constant(j: usize) -> u32
    requires { 1 ≤ j }
    ensures { result ≡ rcon j }
{
    u32::from_be_bytes([power_of_two(j - 1), 0, 0, 0])
}

// What word i adds to word i - nk, from w, word i - 1.
fn added_word(nk: usize, i: usize, w: u32) -> u32
    requires is_key_size { (nk ≡ 4) ⊎ (nk ≡ 8) }
    requires is_past_key { nk ≤ i }
    ensures { result ≡ temp nk i w }
{
    if i % nk == 0 {
        return sub_word(rot_word(w)) ^ round_constant(i / nk);
    }
    if nk > 6 && i % nk == 4 {
        return sub_word(w);
    }
    w
}

/// Word i of a list of bytes.
pub(crate) fn word_at(bytes: &[u8], i: usize) -> u32
    requires { 4 * i + 4 ≤ length bytes.now }
    ensures { result ≡ word_at bytes.now i }
{
    u32::from_be_bytes(<[u8; 4]>::try_from(&bytes[4 * i..4 * i + 4]).unwrap())
}

// The key's words, as many as there is room for.
fn read_words(key: &[u8], words: &mut [u32])
    requires { 4 * length words.old ≤ length key.now }
    ensures { words.new ≡ key_words (length words.old) key.now }
{
    for (i, word) in words.iter_mut().enumerate() {
        *word = word_at(key, i);
    }
}

// The schedule of a key of nk words, for nk + 6 rounds.
fn expand(nk: usize, key: &[u8]) -> KeySchedule
    requires is_key_size { (nk ≡ 4) ⊎ (nk ≡ 8) }
    requires has_nk_words { length key.now ≡ 4 * nk }
    ensures rounds { result.rounds ≡ nk + 6 }
    ensures words { result.words ≡ expanded nk key.now }
{
    let mut words = [0u32; 60];
    read_words(key, &mut words[..nk]);
    // By places: each word is made from two before it.
    for i in nk..4 * nk + 28 {
        words[i] = words[i - nk] ^ added_word(nk, i, words[i - 1]);
    }
    KeySchedule {
        words,
        rounds: nk + 6,
    }
}

impl KeySchedule {
    /// The schedule of a key of Nk words, for Nk + 6 rounds: ten of AES-128, fourteen of AES-256.
    pub fn new<K: AesKey>(key: &K) -> KeySchedule
        ensures rounds { result.rounds ≡ K.NK + 6 }
        ensures words { result.words ≡ expanded K.NK (K.key_bytes key.now) }
    {
        expand(K::NK, key.bytes())
    }
}
