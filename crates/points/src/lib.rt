//! Points of the rules, worked out, and held together in one statement.
#![tactic(auto)]

ghost use Rattle.std.specs.Prelude.{[], ◌∷◌, ◌≡◌};
ghost use Rattle.points.specs.Points.{WorkedPoints};
ghost use Rattle.streams.specs.Points.{WorkedPoints as EndPoints};

use streams::Flow;
use suites::worked_points::worked_points as suite_points;

// The window that a sender begins with.
fn first_window() -> u16
    ensures worked { EndPoints }
    ensures window { result ≡ 1000 }
{
    let flow = Flow::fresh();
    flow.window()
}

/// S of 0x00 and of 0x53; the blocks to which SHA-1 pads 55 and 56 bytes; the window that a sender begins with. With them, where the
/// layers of counter mode start, and when DATA, an acknowledgement and BEGIN are refused.
pub fn worked_points() -> ([u8; 2], [u64; 2], u16)
    ensures points { WorkedPoints }
    ensures substituted { result.0 ≡ 0x63 ∷ 0xED ∷ [] }
    ensures padded { result.1 ≡ 1 ∷ 2 ∷ [] }
    ensures window { result.2 ≡ 1000 }
{
    let (substituted, padded) = suite_points();
    (substituted, padded, first_window())
}
