//! A rule with one coefficient for every density.
ghost use Rattle.std.specs.Prelude.{◌≤◌};
ghost use Rattle.product.specs.Limits.{largest_fixed};

pub mod answer;

/// The coefficient is in units of 10^-7 per °C.
#[derive(Clone, Copy)]
pub struct FixedCoefficient {
    value: u32,
    ghost within: { value ≤ largest_fixed },
}
