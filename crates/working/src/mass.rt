//! Mass in kilograms, from the standard volume.
ghost use Rattle.std.specs.Prelude.{◌≡◌, ◌≤◌, pos};
ghost use Rattle.product.specs.Rules.{least_density, greatest_density};
ghost use Rattle.working.specs.Limits.{most_standard, most_mass};
ghost use Rattle.working.specs.Methods.{mass};

use super::method::Method;
use measure::rounding::rounded_quotient;

/// A density is in half kilograms per cubic metre, so five of them are tenths of a kilogram; air takes off 11 tenths.
pub(crate) fn mass(method: Method, standard: u64, density: u32) -> u64
    requires { (standard ≤ most_standard)
        × ((least_density ≤ density) × (density ≤ greatest_density)) }
    ensures value { pos result ≡ Rattle.working.specs.Methods.mass method (pos standard) density }
    ensures bound { result ≤ most_mass }
{
    let r = u64::from(density);
    match method {
        Method::Plain => rounded_quotient(standard * r, 20_000),
        Method::InAir => rounded_quotient(standard * (5 * r - 11), 100_000),
    }
}
