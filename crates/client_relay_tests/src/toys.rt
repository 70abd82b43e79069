//! A cipher and a digest that show what the ends do, and protect nothing.
ghost use Rattle.std.specs.Prelude.{ℕ, [], ◌∷◌, refl};

use crypto::cipher::Cipher;
use crypto::digest::{Digest, Trial};

/// Layers that change nothing.
#[derive(Clone, Copy)]
pub struct Identity;

impl Cipher for Identity {
    ghost added = { λ c n p. p };

    ghost removed = { λ c n p. p };

    ghost remove_undoes_add = { λ c n p long. refl };

    ghost add_undoes_remove = { λ c n p long. refl };

    ghost added_length = { λ c n p. refl };

    ghost removed_length = { λ c n p. refl };

    fn add(&self, _n: u32, _payload: &mut [u8]) {}

    fn remove(&self, _n: u32, _payload: &mut [u8]) {}
}

/// A digest that answers one byte, four times, for every payload.
#[derive(Clone, Copy)]
pub struct Fixed {
    pub byte: u8,
}

impl Digest for Fixed {
    ghost State = { ℕ };

    ghost state = { λ d. d.byte };

    ghost takes = { λ s p. s };

    ghost tags = { λ s p. s ∷ (s ∷ (s ∷ (s ∷ []))) };

    ghost tag_length = { λ s p. refl };

    fn take(&mut self, _payload: &[u8]) {}

    fn tag(&self, _payload: &[u8]) -> [u8; 4] {
        [self.byte; 4]
    }

    fn trial(&self, payload: &[u8]) -> Trial<Fixed> {
        Trial {
            tag: self.tag(payload),
            taken: *self,
        }
    }
}
