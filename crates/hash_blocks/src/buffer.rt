//! A block function, and what a hash keeps between two bytes: its state and the unfinished block.
ghost use Rattle.std.specs.Prelude.{◌≡◌, ℕ, ◌<◌, List, length};

/// A state that takes blocks of W bytes.
pub trait BlockFunction<const W: usize>: Sized {
    /// What the state stands for.
    ghost State: { Type 0 };

    ghost view: { Self → State };

    /// The state once it took the block.
    ghost after: { State → List ℕ → State };

    /// Takes a block into the state.
    fn absorb(&mut self, block: &[u8; W])
        ensures { view self.new ≡ after (view self.old) block.now };

    /// A second state, equal to this one: a tag is computed on it, and this one stands.
    /// By a method of its own and not by `Clone`, since a secret is neither `Clone` nor `Copy`.
    fn another(&self) -> Self
        ensures { view result ≡ view self.now };
}

/// A state and the `fill` bytes of its unfinished block; what `block` holds past them is stale.
/// An array with its count beside it, since a digest takes no heap.
#[derive(Drop)]
pub struct Buffer<S, const W: usize> {
    pub state: S,
    pub block: [u8; W],
    pub fill: usize,
    ghost unfinished: { fill < W },
    ghost size: { length block ≡ W },
}
