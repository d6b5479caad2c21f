//! How much the tank's wall has grown.
ghost use Rattle.std.specs.Prelude.{◌≡◌, ◌≤◌, pos};
ghost use Rattle.working.specs.Limits.{largest_shell, most_wall_factor};
ghost use Rattle.working.specs.Steps.{wall_factor};

use super::temperature::offset::Offset;
use super::unit::UNIT;
use measure::rounding::rounded_signed_quotient;

/// The wall factor in units of 10^-9, from the wall's own offset from 15 °C.
pub(crate) fn wall_factor(shell: u32, offset: Offset) -> u64
    requires { shell ≤ largest_shell }
    ensures value { pos result ≡ wall_factor shell offset.ten_millionths }
    ensures bound { result ≤ most_wall_factor }
{
    let y = i64::from(shell) * offset.ten_millionths;
    let z = rounded_signed_quotient(y, 100_000);
    let growth = rounded_signed_quotient(20_000 * y + z * z, UNIT);
    (UNIT as i64 + growth) as u64
}
