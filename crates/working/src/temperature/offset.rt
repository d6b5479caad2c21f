//! How far a temperature is from the standard's 15 °C.
ghost use Rattle.std.specs.Prelude.{◌≡◌};
ghost use Rattle.working.specs.Limits.{OffsetWithin};
ghost use Rattle.working.specs.Workings.{offset_of};

use super::Temperature;

const FIFTEEN_DEGREES: i64 = 150_000_000;

/// From -55 °C to 135 °C, in ten-millionths of a °C.
#[derive(Clone, Copy, PartialEq, Eq, Debug)]
pub struct Offset {
    pub ten_millionths: i64,
    ghost within: { OffsetWithin ten_millionths },
}

impl Temperature {
    pub fn offset(self) -> Offset
        ensures { result.ten_millionths ≡ offset_of self }
    {
        Offset {
            ten_millionths: self.ten_millionths - FIFTEEN_DEGREES,
        }
    }
}
