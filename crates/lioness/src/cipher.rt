//! LIONESS as a cipher for payloads.
ghost use Rattle.std.specs.Prelude.{◌≡◌, ℕ, List, length};
ghost use Rattle.aes.specs.Payload.{on_payload};
ghost use Rattle.lioness.specs.Lioness.{lioness_add, lioness_remove};
ghost use Rattle.lioness.specs.Steps.{left_step, right_step};
ghost use Rattle.lioness.specs.Rules.{added_by, removed_by};
ghost use Rattle.lioness.specs.Laws.{removed_by-added_by, added_by-removed_by, length-added_by, length-removed_by};

use super::steps::{change_left, change_right, part_at};
use super::{Lioness, Round};
use crypto::cipher::Cipher;

impl Lioness {
    /// LIONESS under K1, K2, K3 and K4, joined.
    pub fn new(key: &[u8; 128]) -> Lioness
        ensures added { (p : List ℕ) → added_by result p ≡ on_payload (lioness_add key.now) p }
        ensures removed { (p : List ℕ) → removed_by result p ≡ on_payload (lioness_remove key.now) p }
    {
        Lioness {
            first: Round {
                right_key: part_at(key, 0),
                left_key: part_at(key, 32),
            },
            second: Round {
                right_key: part_at(key, 64),
                left_key: part_at(key, 96),
            },
        }
    }
}

impl Round {
    fn add(&self, payload: &mut [u8; 509])
        ensures { payload.new ≡ left_step self.now.left_key (right_step self.now.right_key payload.old) }
    {
        change_right(&self.right_key, payload);
        change_left(&self.left_key, payload);
    }

    // The same two in reverse: each undoes itself.
    fn remove(&self, payload: &mut [u8; 509])
        ensures { payload.new ≡ right_step self.now.right_key (left_step self.now.left_key payload.old) }
    {
        change_left(&self.left_key, payload);
        change_right(&self.right_key, payload);
    }
}

impl Cipher for Lioness {
    ghost added = { λ c _ p. added_by c p };

    ghost removed = { λ c _ p. removed_by c p };

    ghost remove_undoes_add = { λ c n p is. removed_by-added_by c p is };

    ghost add_undoes_remove = { λ c n p is. added_by-removed_by c p is };

    ghost added_length = { λ c n p. length-added_by c p };

    ghost removed_length = { λ c n p. length-removed_by c p };

    fn add(&self, _n: u32, payload: &mut [u8]) {
        if let Some(payload) = payload.as_mut_array::<509>() {
            self.first.add(payload);
            self.second.add(payload);
        }
    }

    fn remove(&self, _n: u32, payload: &mut [u8]) {
        if let Some(payload) = payload.as_mut_array::<509>() {
            self.second.remove(payload);
            self.first.remove(payload);
        }
    }
}
