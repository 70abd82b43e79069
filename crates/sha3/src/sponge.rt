//! The sponge: a block is added to the first 17 lanes, and the state is permuted.
ghost use Rattle.std.specs.Prelude.{◌≡◌, ℕ, ◌*◌, ◌<◌, List};
ghost use Rattle.hash_blocks.specs.Blocks.{feed};
ghost use Rattle.hash_blocks.specs.Buffers.{running};
ghost use Rattle.sha3.specs.Planes.{flat, view, block_plane};
ghost use Rattle.sha3.specs.Sha3.{block_lane, xor_block, absorb_block, padding};

use crate::permutation::{permuted, xor};
use crate::planes::{KeccakState, Lanes, Plane};
use hash_blocks::buffer::{BlockFunction, Buffer};

/// Lane i of the block, of zeros past its end.
fn lane_at(block: &[u8; 136], i: usize) -> u64
    requires { i < 25 }
    ensures { result ≡ block_lane block.now i }
{
    let (lanes, _) = block.as_chunks::<8>();
    lanes.get(i).map_or(0, |lane| u64::from_le_bytes(*lane))
}

fn plane_at(block: &[u8; 136], y: usize) -> Plane
    requires { y < 5 }
    ensures { result ≡ block_plane block.now (5 * y) }
{
    let i = 5 * y;
    Plane {
        x0: lane_at(block, i),
        x1: lane_at(block, i + 1),
        x2: lane_at(block, i + 2),
        x3: lane_at(block, i + 3),
        x4: lane_at(block, i + 4),
    }
}

fn xor_block(a: Lanes, block: &[u8; 136]) -> Lanes
    ensures { flat result ≡ xor_block (flat a) block.now }
{
    Lanes {
        y0: xor(a.y0, plane_at(block, 0)),
        y1: xor(a.y1, plane_at(block, 1)),
        y2: xor(a.y2, plane_at(block, 2)),
        y3: xor(a.y3, plane_at(block, 3)),
        y4: xor(a.y4, plane_at(block, 4)),
    }
}

impl BlockFunction<136> for KeccakState {
    ghost State = { List ℕ };

    ghost view = { λ k. view k };

    ghost after = { λ a b. absorb_block a b };

    fn absorb(&mut self, block: &[u8; 136]) {
        self.lanes = permuted(xor_block(self.lanes, block));
    }

    fn another(&self) -> KeccakState {
        KeccakState { lanes: self.lanes }
    }
}

/// Takes the padding of a message whose unfinished block is the buffer's.
pub(crate) fn pad(buffer: &mut Buffer<KeccakState, 136>)
    ensures { running view buffer.new ≡ feed 136 absorb_block (running view buffer.old) (padding buffer.old.fill) }
{
    let last = 135 - buffer.fill;
    let mut end = [0u8; 136];
    end[0] = 6;
    end[last] ^= 128;
    buffer.feed(&end[0..last + 1]);
}
