//! A running digest: a state and two fixed rules over it and a payload.
ghost use Rattle.std.specs.Prelude.{ℕ, length, List, ◌≡◌};

/// A payload tried on a digest: its tag, and the digest as it is once it took the payload.
/// The digest that was asked has not changed, so a trial that fails is let go and nothing is restored.
#[derive(Drop)]
pub struct Trial<D> {
    pub tag: [u8; 4],
    pub taken: D,
}

/// One hop's running digest for one way.
pub trait Digest: Sized {
    /// What the digest stands for; buffers and stale bytes are no part of it.
    ghost State: { Type 0 };

    ghost state: { Self → State };

    /// The state once it took the payload.
    ghost takes: { State → List ℕ → State };

    /// The four bytes that the state answers for the payload.
    ghost tags: { State → List ℕ → List ℕ };

    /// Takes the payload into the state.
    fn take(&mut self, payload: &[u8])
        ensures { state self.new ≡ takes (state self.old) payload.now };

    /// The payload's tag; the state stands.
    fn tag(&self, payload: &[u8]) -> [u8; 4]
        ensures { result ≡ tags (state self.now) payload.now };

    /// Both in one pass over the payload, for a caller that decides afterwards which to keep.
    fn trial(&self, payload: &[u8]) -> Trial<Self>
        ensures tag { result.tag ≡ tags (state self.now) payload.now }
        ensures taken { state result.taken ≡ takes (state self.now) payload.now };

    ghost tag_length: { (s : State) (p : List ℕ) → length (tags s p) ≡ 4 };
}
