//! A cipher: for each layer number n a rule that maps 509 bytes to 509 bytes, and its inverse.
ghost use Rattle.std.specs.Prelude.{ℕ, length, List, ◌≡◌};

/// One hop's cipher for one way. Its layers are numbered from 0; neither call refuses or changes the cipher.
/// The rule is a function of every list, and what it does to a list of another length is the cipher's own affair.
pub trait Cipher {
    /// The payload with layer n added.
    ghost added: { Self → ℕ → List ℕ → List ℕ };

    /// The payload with layer n removed.
    ghost removed: { Self → ℕ → List ℕ → List ℕ };

    fn add(&self, n: u32, payload: &mut [u8])
        ensures { payload.new ≡ added self.now n payload.old };

    fn remove(&self, n: u32, payload: &mut [u8])
        ensures { payload.new ≡ removed self.now n payload.old };

    ghost remove_undoes_add: { (c : Self) (n : ℕ) (p : List ℕ) → length p ≡ 509 → removed c n (added c n p) ≡ p };

    ghost add_undoes_remove: { (c : Self) (n : ℕ) (p : List ℕ) → length p ≡ 509 → added c n (removed c n p) ≡ p };

    ghost added_length: { (c : Self) (n : ℕ) (p : List ℕ) → length (added c n p) ≡ length p };

    ghost removed_length: { (c : Self) (n : ℕ) (p : List ℕ) → length (removed c n p) ≡ length p };
}
