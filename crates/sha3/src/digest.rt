//! The running digest, and the hash of a whole message.
ghost use Rattle.std.specs.Prelude.{◌≡◌, ℕ, List, ◌++◌, take};
ghost use Rattle.std.proofs.Math.Path.{refl};
ghost use Rattle.hash_blocks.specs.Taking.{took_all, joined};
ghost use Rattle.sha3.specs.Digests.{Sha3State, state_of, empty, takes, finish, first_four, tags};
ghost use Rattle.sha3.specs.Laws.{Sha3Laws};
ghost use Rattle.sha3.specs.Planes.{flat};
ghost use Rattle.sha3.specs.Sha3.{squeezed, sha3};

use crate::permutation::plane;
use crate::planes::{KeccakState, Lanes};
use crate::running::Sha3;
use crate::sponge::pad;
use crypto::digest::{Digest, Trial};
use hash_blocks::buffer::{BlockFunction, Buffer};

impl Sha3 {
    /// A digest that took nothing.
    fn empty() -> Sha3
        ensures { state_of result ≡ empty }
    {
        let zero = plane(0, 0, 0, 0, 0);
        let lanes = Lanes {
            y0: zero,
            y1: zero,
            y2: zero,
            y3: zero,
            y4: zero,
        };
        let buffer = Buffer {
            state: KeccakState { lanes },
            block: [0; 136],
            fill: 0,
        };
        Sha3 { buffer }
    }

    /// A digest that took the seed. Whatever payloads it then takes, the next payload's tag is
    /// the first four bytes of the hash over the seed, those payloads and this one.
    pub fn seeded(seed: &[u8]) -> Sha3
        ensures state { state_of result ≡ takes empty seed.now }
        ensures tags { (ps : List (List ℕ)) (p : List ℕ) → tags (took_all takes (state_of result) ps) p ≡ take 4 (sha3 (seed.now ++ (joined ps ++ p))) }
    {
        let mut digest = Sha3::empty();
        digest.take(seed);
        digest
    }

    /// A second digest in the same state; no `Clone`, since a secret has none.
    fn another(&self) -> Sha3
        ensures { state_of result ≡ state_of self.now }
    {
        Sha3 {
            buffer: self.buffer.another(),
        }
    }

    /// The lanes over all that was taken.
    fn finished(&self) -> Lanes
        ensures { flat result ≡ finish (state_of self.now) }
    {
        let mut end = self.buffer.another();
        pad(&mut end);
        end.state.lanes
    }

    /// The first four bytes of the hash over all that was taken.
    #[tactic(auto, unfolding(crate::specs::Digests::first_four))]
    fn first_four(&self) -> [u8; 4]
        ensures { result ≡ first_four (state_of self.now) }
    {
        let [b0, b1, b2, b3, _, _, _, _] = self.finished().y0.x0.to_le_bytes();
        [b0, b1, b2, b3]
    }
}

// As at SHA-1, which says why the lines are not shared.
impl Digest for Sha3 {
    ghost State = { Sha3State };

    ghost state = { λ d. state_of d };

    ghost takes = { λ s p. takes s p };

    ghost tags = { λ s p. tags s p };

    ghost tag_length = { unfold first_four in λ s p. refl };

    fn take(&mut self, payload: &[u8]) {
        self.buffer.feed(payload);
    }

    fn tag(&self, payload: &[u8]) -> [u8; 4] {
        self.trial(payload).tag
    }

    fn trial(&self, payload: &[u8]) -> Trial<Sha3> {
        let mut taken = self.another();
        taken.take(payload);
        let tag = taken.first_four();
        Trial { tag, taken }
    }
}

/// The first 32 bytes of the lanes.
fn squeeze(a: Lanes) -> [u8; 32]
    ensures { result ≡ squeezed (flat a) }
{
    let mut bytes = [0u8; 32];
    bytes[0..8].copy_from_slice(&a.y0.x0.to_le_bytes());
    bytes[8..16].copy_from_slice(&a.y0.x1.to_le_bytes());
    bytes[16..24].copy_from_slice(&a.y0.x2.to_le_bytes());
    bytes[24..32].copy_from_slice(&a.y0.x3.to_le_bytes());
    bytes
}

/// The hash of a whole message; it carries the laws of the definitions.
pub fn sha3_256(message: &[u8]) -> [u8; 32]
    ensures value { result ≡ sha3 message.now }
    ensures laws { Sha3Laws }
{
    sha3_256_of_two(message, &[])
}

/// Takes two parts, the second after the first.
fn take_both(digest: &mut Sha3, first: &[u8], second: &[u8])
    ensures { state_of digest.new ≡ takes (takes (state_of digest.old) first.now) second.now }
{
    digest.take(first);
    digest.take(second);
}

/// The hash of a message in two parts, the second after the first; nothing is allocated.
pub fn sha3_256_of_two(first: &[u8], second: &[u8]) -> [u8; 32]
    ensures { result ≡ sha3 (first.now ++ second.now) }
{
    let mut digest = Sha3::empty();
    take_both(&mut digest, first, second);
    squeeze(digest.finished())
}
