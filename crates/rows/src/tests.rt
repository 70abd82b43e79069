//! A row on an example, with layers that change nothing and digests whose tag never changes.
ghost use Rattle.std.specs.Prelude.{ℕ, [], ◌∷◌, refl};

use crate::row::Row;
use crypto::cipher::Cipher;
use crypto::digest::{Digest, Trial};
use hops::End;
use std::test::Fail;

// `Plain` and `Still` are as `Identity` and `Fixed` of client_relay_tests: a crate between for two test types is more than they are.
#[derive(Clone, Copy)]
struct Plain;

impl Cipher for Plain {
    ghost added = { λ c n p. p };

    ghost removed = { λ c n p. p };

    ghost remove_undoes_add = { λ c n p long. refl };

    ghost add_undoes_remove = { λ c n p long. refl };

    ghost added_length = { λ c n p. refl };

    ghost removed_length = { λ c n p. refl };

    fn add(&self, _n: u32, _payload: &mut [u8]) {}

    fn remove(&self, _n: u32, _payload: &mut [u8]) {}
}

// The tag is its byte, four times.
#[derive(Clone, Copy)]
struct Still {
    byte: u8,
}

impl Digest for Still {
    ghost State = { ℕ };

    ghost state = { λ d. d.byte };

    ghost takes = { λ s p. s };

    ghost tags = { λ s p. s ∷ (s ∷ (s ∷ (s ∷ []))) };

    ghost tag_length = { λ s p. refl };

    fn take(&mut self, _payload: &[u8]) {}

    fn tag(&self, _payload: &[u8]) -> [u8; 4] {
        [self.byte; 4]
    }

    fn trial(&self, payload: &[u8]) -> Trial<Still> {
        Trial {
            tag: self.tag(payload),
            taken: *self,
        }
    }
}

#[test]
fn grows_and_is_sought(rt: HostRuntime) -> Result<(), Fail> {
    let mut row = Row::new(Vec::new(rt.alloc()));
    for byte in [7, 8, 9] {
        row.push(End::new(Plain, Still { byte }))?;
    }
    assert_eq!(rt; row.len(), 3);
    assert_eq!(rt; row.worn_at(), None);
    let mut payload = [0u8; 509];
    payload[5..9].fill(8);
    let found = row.seek(&mut payload);
    assert!(rt; found.is_some_and(|(place, _)| place == 1));
    Ok(())
}
