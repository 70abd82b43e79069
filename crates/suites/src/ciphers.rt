//! The cipher of a suite, as one cipher.
ghost use Rattle.suites.specs.Ciphers.{cipher_added, cipher_removed};
ghost use Rattle.lioness.specs.Laws.{removed_by-added_by, added_by-removed_by, length-added_by, length-removed_by};
ghost use Rattle.suites.specs.declared.keys.SuiteCipher.TheVariants.{Counter, Lioness};
ghost use Rattle.aes.specs.CounterModeCipherLemmas.{twice, length-counter_layer};

use crate::keys::SuiteCipher;
use crypto::cipher::Cipher;

impl Cipher for SuiteCipher {
    ghost added = { λ c n p. cipher_added c n p };

    ghost removed = { λ c n p. cipher_removed c n p };

    ghost remove_undoes_add = { elim [
      | Counter c ↦ λ n p is. twice c n p is
      | Lioness c ↦ λ n p is. removed_by-added_by c p is
    ] };

    ghost add_undoes_remove = { elim [
      | Counter c ↦ λ n p is. twice c n p is
      | Lioness c ↦ λ n p is. added_by-removed_by c p is
    ] };

    ghost added_length = { elim [
      | Counter c ↦ λ n p. length-counter_layer c n p
      | Lioness c ↦ λ n p. length-added_by c p
    ] };

    ghost removed_length = { elim [
      | Counter c ↦ λ n p. length-counter_layer c n p
      | Lioness c ↦ λ n p. length-removed_by c p
    ] };

    fn add(&self, n: u32, payload: &mut [u8]) {
        match self {
            SuiteCipher::Counter(cipher) => cipher.add(n, payload),
            SuiteCipher::Lioness(cipher) => cipher.add(n, payload),
        }
    }

    fn remove(&self, n: u32, payload: &mut [u8]) {
        match self {
            SuiteCipher::Counter(cipher) => cipher.remove(n, payload),
            SuiteCipher::Lioness(cipher) => cipher.remove(n, payload),
        }
    }
}
