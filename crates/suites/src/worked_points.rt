//! Points of the suites' definitions, worked out.
ghost use Rattle.std.specs.Prelude.{◌≡◌, [], ◌∷◌};
ghost use Rattle.sha_1.specs.Laws.{PaddingBoundary};
ghost use Rattle.suites.specs.Points.{SuitePoints};

use aes::worked_points::worked_points as aes_points;
use sha_1::laws::padded_blocks;

fn padded() -> [u64; 2]
    ensures boundary { PaddingBoundary }
    ensures counts { result ≡ 1 ∷ 2 ∷ [] }
{
    [padded_blocks(55), padded_blocks(56)]
}

/// S of 0x00 and of 0x53, and the blocks to which SHA-1 pads 55 and 56 bytes; with them, at which block
/// and byte the layers of counter mode start.
pub fn worked_points() -> ([u8; 2], [u64; 2])
    ensures points { SuitePoints }
    ensures substituted { result.0 ≡ 0x63 ∷ 0xED ∷ [] }
    ensures padded { result.1 ≡ 1 ∷ 2 ∷ [] }
{
    (aes_points(), padded())
}
