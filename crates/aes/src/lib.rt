//! AES-128 and AES-256 of FIPS 197, their key stream in counter mode, and the layers that it adds to payloads.
#![tactic(auto)]

ghost use Rattle.std.specs.Prelude.{◌≡◌, ◌+◌, ◌*◌, ◌≤◌, length, take};
ghost use Rattle.aes.specs.Schedule.{Schedule, used-sound};

use std::marker::Model;

pub mod block_cipher;
pub mod counter_mode;
pub mod key;
pub mod key_expansion;
pub mod key_stream;
pub mod worked_points;

/// The round keys of one key, made once: four words to a round and four before the first. Words past them are 0.
/// (An array for the longer key, since no heap is taken.)
#[derive(Drop)]
pub struct KeySchedule {
    words: [u32; 60],
    rounds: usize,
    ghost sound: { (length words ≡ 60) × (10 ≤ rounds) × (rounds ≤ 14) },
}

impl Model for KeySchedule {
    ghost Value = { Schedule };

    ghost view = { λ k. record { rounds = k.rounds; words = take (4 * (k.rounds + 1)) k.words; sound = used-sound k.rounds k.words k.sound } };
}

// A state or a round key: its four columns, each a word whose highest byte is row 0. Four fields, and neither an array nor a
// model, since the contract of a round speaks of each column by itself.
#[derive(Clone, Copy)]
struct Columns {
    c0: u32,
    c1: u32,
    c2: u32,
    c3: u32,
}

/// A cipher for payloads: layer n is the payload exclusive-or bytes 509 n to 509 n + 508 of the key stream.
#[derive(Drop)]
pub struct CounterMode {
    schedule: KeySchedule,
}
