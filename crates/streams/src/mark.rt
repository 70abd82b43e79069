//! The mark of a delivery as a number.
ghost use Rattle.std.specs.Prelude.{◌≡◌};
ghost use Rattle.streams.specs.Marks.{mark_number};

use crate::types::Mark;

impl From<Mark> for u8 {
    ghost from_gives = { λ mark number. number ≡ mark_number mark };

    fn from(mark: Mark) -> u8 {
        match mark {
            Mark::InTime => 0,
            Mark::Late => 1,
        }
    }
}
