//! Counter mode as a cipher for payloads.
ghost use Rattle.std.specs.Prelude.{◌≡◌, ℕ, List};
ghost use Rattle.aes.specs.CounterMode.{counter_layer, layered};
ghost use Rattle.aes.specs.Payload.{on_payload};
ghost use Rattle.aes.specs.CounterModeCipherLemmas.{twice, length-counter_layer};

use super::key::AesKey;
use super::{CounterMode, KeySchedule};
use crypto::cipher::Cipher;

impl CounterMode {
    /// Counter mode under the key: AES-128 or AES-256, by its size.
    pub fn new<K: AesKey>(key: &K) -> CounterMode
        ensures { (n : ℕ) (p : List ℕ) → counter_layer result n p ≡ on_payload (layered K.NK (K.key_bytes key.now) n) p }
    {
        CounterMode {
            schedule: KeySchedule::new(key),
        }
    }
}

impl Cipher for CounterMode {
    ghost added = { λ c n p. counter_layer c n p };

    ghost removed = { λ c n p. counter_layer c n p };

    ghost remove_undoes_add = { twice };

    ghost add_undoes_remove = { twice };

    ghost added_length = { length-counter_layer };

    ghost removed_length = { length-counter_layer };

    fn add(&self, n: u32, payload: &mut [u8]) {
        if payload.len() == 509 {
            self.schedule.xor_stream(509 * n as u64, payload);
        }
    }

    // The same bytes exclusive-ored once more.
    fn remove(&self, n: u32, payload: &mut [u8]) {
        self.add(n, payload);
    }
}
