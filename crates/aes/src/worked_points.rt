//! Points of the definitions, worked out.
ghost use Rattle.std.specs.Prelude.{◌≡◌, [], ◌∷◌};
ghost use Rattle.aes_tables.specs.Field.{Inverses};
ghost use Rattle.aes.specs.Points.{Example128, Example256, LayerTwice, WorkedPoints};

use aes_tables::sub_byte;

// The statements that no code has a part in.
fn stated()
    ensures points { WorkedPoints }
    ensures aes128 { Example128 }
    ensures aes256 { Example256 }
    ensures inverses { Inverses }
    ensures twice { LayerTwice }
{}

/// S of 0x00 and of 0x53, and with them what the definitions give at the standard's examples.
pub fn worked_points() -> [u8; 2]
    ensures points { WorkedPoints }
    ensures aes128 { Example128 }
    ensures aes256 { Example256 }
    ensures inverses { Inverses }
    ensures twice { LayerTwice }
    ensures substituted { result ≡ 0x63 ∷ 0xED ∷ [] }
{
    stated();
    [sub_byte(0x00), sub_byte(0x53)]
}
