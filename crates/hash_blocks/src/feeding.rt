//! Bytes go into the unfinished block, and whole blocks straight into the state.
ghost use Rattle.std.specs.Prelude.{◌≡◌, ◌+◌, ◌≤◌, ◌++◌, fold, length, take};
ghost use Rattle.hash_blocks.specs.Blocks.{feed, IncrementalLaw};
ghost use Rattle.hash_blocks.specs.Buffers.{running};

use crate::buffer::{BlockFunction, Buffer};

/// Writes the part into the block, from `fill` on.
fn put<const W: usize>(block: &mut [u8; W], fill: usize, part: &[u8])
    requires { fill + length part.now ≤ W }
    ensures size { length block.new ≡ W }
    ensures front { take (fill + length part.now) block.new ≡ take fill block.old ++ part.now }
{
    let block = &mut block[..];
    block[fill..fill + part.len()].copy_from_slice(part);
}

/// Takes the blocks into the state, one after the other.
fn absorb_all<S: BlockFunction<W>, const W: usize>(state: &mut S, blocks: &[[u8; W]])
    ensures { S.BlockFunction.view state.new ≡ fold S.BlockFunction.after (S.BlockFunction.view state.old) blocks.now }
{
    for block in blocks {
        state.absorb(block);
    }
}

impl<S: BlockFunction<W>, const W: usize> Buffer<S, W> {
    /// Takes the bytes, as if one after the other; by the law that it carries this is what whole blocks give.
    pub fn feed(&mut self, bytes: &[u8])
        ensures fed { running S.BlockFunction.view self.new ≡ feed W S.BlockFunction.after (running S.BlockFunction.view self.old) bytes.now }
        ensures law { IncrementalLaw S.BlockFunction.State }
    {
        let room = W - self.fill;
        if bytes.len() < room {
            put(&mut self.block, self.fill, bytes);
            self.fill += bytes.len();
        } else {
            put(&mut self.block, self.fill, &bytes[..room]);
            self.state.absorb(&self.block);
            let (blocks, rest) = bytes[room..].as_chunks::<W>();
            absorb_all(&mut self.state, blocks);
            put(&mut self.block, 0, rest);
            self.fill = rest.len();
        }
    }

    /// A second buffer with the same state and unfinished block; no `Clone`, since a secret has none.
    pub fn another(&self) -> Buffer<S, W>
        ensures { running S.BlockFunction.view result ≡ running S.BlockFunction.view self.now }
    {
        Buffer {
            state: self.state.another(),
            block: self.block,
            fill: self.fill,
        }
    }
}
