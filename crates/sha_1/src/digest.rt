//! The running digest, and the hash of a whole message.
ghost use Rattle.std.specs.Prelude.{◌≡◌, ℕ, ◌*◌, ◌%◌, ◌^◌, List, ◌++◌, take};
ghost use Rattle.std.proofs.Math.Path.{refl};
ghost use Rattle.hash_blocks.specs.Blocks.{feed};
ghost use Rattle.hash_blocks.specs.Buffers.{running};
ghost use Rattle.hash_blocks.specs.Taking.{took_all, joined};
ghost use Rattle.sha_1.specs.Digests.{Sha1State, state_of, empty, takes, finish, first_four, tags};
ghost use Rattle.sha_1.specs.Sha1.{compress, be64, padding, digest_bytes, sha1};
ghost use Rattle.sha_1.specs.declared.words.HashValue.{HashValue as FiveWords};

use crate::block::compressed;
use crate::running::Sha1;
use crate::words::HashValue;
use crypto::digest::{Digest, Trial};
use hash_blocks::buffer::{BlockFunction, Buffer};

impl BlockFunction<64> for HashValue {
    ghost State = { FiveWords };

    ghost view = { λ h. h };

    ghost after = { λ h b. compress h b };

    fn absorb(&mut self, block: &[u8; 64]) {
        *self = compressed(self, block);
    }

    fn another(&self) -> HashValue {
        HashValue {
            h0: self.h0,
            h1: self.h1,
            h2: self.h2,
            h3: self.h3,
            h4: self.h4,
        }
    }
}

/// The last eight bytes of the padding: the length in bits.
fn length_bytes(len: u64) -> [u8; 8]
    ensures { result ≡ be64 ((8 * len) % 2 ^ 64) }
{
    8u64.wrapping_mul(len).to_be_bytes()
}

/// Takes the padding of a message of `len` bytes.
fn pad(buffer: &mut Buffer<HashValue, 64>, len: u64)
    ensures { running (λ h. h) buffer.new ≡ feed 64 compress (running (λ h. h) buffer.old) (padding len) }
{
    let zeros = [0u8; 64];
    let count = (119 - (len % 64) as usize) % 64;
    buffer.feed(&[0x80]);
    buffer.feed(&zeros[0..count]);
    buffer.feed(&length_bytes(len));
}

impl Sha1 {
    /// A digest that took nothing.
    fn empty() -> Sha1
        ensures { state_of result ≡ empty }
    {
        let state = HashValue {
            h0: 0x67452301,
            h1: 0xEFCDAB89,
            h2: 0x98BADCFE,
            h3: 0x10325476,
            h4: 0xC3D2E1F0,
        };
        let buffer = Buffer {
            state,
            block: [0; 64],
            fill: 0,
        };
        Sha1 { buffer, len: 0 }
    }

    /// A digest that took the seed. Whatever payloads it then takes, the next payload's tag is
    /// the first four bytes of the hash over the seed, those payloads and this one.
    pub fn seeded(seed: &[u8]) -> Sha1
        ensures state { state_of result ≡ takes empty seed.now }
        ensures tags { (ps : List (List ℕ)) (p : List ℕ) → tags (took_all takes (state_of result) ps) p ≡ take 4 (sha1 (seed.now ++ (joined ps ++ p))) }
    {
        let mut digest = Sha1::empty();
        digest.take(seed);
        digest
    }

    /// A second digest in the same state; no `Clone`, since a secret has none.
    fn another(&self) -> Sha1
        ensures { state_of result ≡ state_of self.now }
    {
        Sha1 {
            buffer: self.buffer.another(),
            len: self.len,
        }
    }

    /// The hash value over all that was taken.
    #[tactic(auto, unfolding(crate::specs::Digests::finish))]
    fn finished(&self) -> HashValue
        ensures { result ≡ finish (state_of self.now) }
    {
        let mut end = self.buffer.another();
        pad(&mut end, self.len);
        end.state
    }

    /// The first four bytes of the hash over all that was taken.
    #[tactic(auto, unfolding(crate::specs::Digests::first_four))]
    fn first_four(&self) -> [u8; 4]
        ensures { result ≡ first_four (state_of self.now) }
    {
        self.finished().h0.to_be_bytes()
    }
}

// SHA3 has the same few lines here and in `seeded`. An impl of `Digest` for every hash may not stand outside its crate, and a
// trait that lends the lines to both repeats all members of `Digest`. `Digest` itself cannot give `tag` its body: a digest need
// not be `Drop`, and the trial's would be let go.
impl Digest for Sha1 {
    ghost State = { Sha1State };

    ghost state = { λ d. state_of d };

    ghost takes = { λ s p. takes s p };

    ghost tags = { λ s p. tags s p };

    ghost tag_length = { unfold first_four in λ s p. refl };

    fn take(&mut self, payload: &[u8]) {
        self.buffer.feed(payload);
        self.len = self.len.wrapping_add(payload.len() as u64);
    }

    fn tag(&self, payload: &[u8]) -> [u8; 4] {
        self.trial(payload).tag
    }

    fn trial(&self, payload: &[u8]) -> Trial<Sha1> {
        let mut taken = self.another();
        taken.take(payload);
        let tag = taken.first_four();
        Trial { tag, taken }
    }
}

/// The hash value's bytes.
fn digest_bytes(h: &HashValue) -> [u8; 20]
    ensures { result ≡ digest_bytes h.now }
{
    let mut bytes = [0u8; 20];
    bytes[0..4].copy_from_slice(&h.h0.to_be_bytes());
    bytes[4..8].copy_from_slice(&h.h1.to_be_bytes());
    bytes[8..12].copy_from_slice(&h.h2.to_be_bytes());
    bytes[12..16].copy_from_slice(&h.h3.to_be_bytes());
    bytes[16..20].copy_from_slice(&h.h4.to_be_bytes());
    bytes
}

/// The hash of a whole message.
pub fn sha1(message: &[u8]) -> [u8; 20]
    ensures { result ≡ sha1 message.now }
{
    digest_bytes(&Sha1::seeded(message).finished())
}
