//! Volumes in tenths of a litre.
ghost use Rattle.std.specs.Prelude.{◌≡◌, ℕ, ◌*◌, ◌^◌, ◌<◌, ◌≤◌, pos};
ghost use Rattle.working.specs.Steps.{unit, scaled};

use super::unit::UNIT;
use measure::rounding::rounded_quotient;

/// A volume times a factor.
pub(crate) fn scaled(volume: u64, factor: u64) -> u64
    requires { volume * factor < 2 ^ 64 }
    ensures value { pos result ≡ scaled (pos volume) (pos factor) }
    ensures bound { (most : ℕ) → volume * factor ≤ most * unit → result ≤ most }
{
    rounded_quotient(volume * factor, UNIT)
}
