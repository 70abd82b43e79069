//! The keys of AES by their size.
ghost use Rattle.std.specs.Prelude.{◌≡◌, ◌*◌, ◌⊎◌, ℕ, List, length};
ghost use Rattle.std.proofs.Common.{inl, inr, refl};

/// A key of Nk words.
pub trait AesKey {
    const NK: usize;

    ghost NK: { ℕ };

    ghost key_bytes: { Self → List ℕ };

    fn bytes(&self) -> &[u8]
        ensures value { result.now ≡ key_bytes self.now }
        ensures count { length result.now ≡ 4 * NK };

    /// AES-128 has four words, and AES-256 eight.
    ghost is_four_or_eight: { (NK ≡ 4) ⊎ (NK ≡ 8) };
}

// One impl for each size that AES has: an impl for every `[u8; N]` could not show the law.

impl AesKey for [u8; 16] {
    const NK: usize = 4;

    ghost NK = { 4 };

    ghost key_bytes = { λ key. key };

    ghost is_four_or_eight = { inl refl };

    fn bytes(&self) -> &[u8] {
        self
    }
}

impl AesKey for [u8; 32] {
    const NK: usize = 8;

    ghost NK = { 8 };

    ghost key_bytes = { λ key. key };

    ghost is_four_or_eight = { inr refl };

    fn bytes(&self) -> &[u8] {
        self
    }
}
