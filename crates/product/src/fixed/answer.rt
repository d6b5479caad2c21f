//! Making a fixed coefficient, and what it answers.
ghost use Rattle.std.specs.Prelude.{◌≡◌, Some, None, MatchResult};
ghost use Rattle.product.specs.FixedRules.{fixed_refusal, fixed_meaning};

use super::super::limits::{GREATEST_DENSITY, LEAST_DENSITY};
use super::super::rule::{ProductRule, not_covered};
use super::FixedCoefficient;
use measure::refusal::{Cause, Refusal};

const LARGEST_FIXED: u32 = 20_000;

impl FixedCoefficient {
    /// A value over 20,000 is refused, and nothing is made.
    pub fn new(value: u32) -> Result<FixedCoefficient, Refusal>
        ensures { MatchResult result
            (λ p. (fixed_refusal value ≡ None) × (p.value ≡ value))
            (λ e. fixed_refusal value ≡ Some e) }
    {
        if value > LARGEST_FIXED {
            return Err(Cause::CoefficientLimit.at(i64::from(value)));
        }
        Ok(FixedCoefficient { value })
    }
}

impl ProductRule for FixedCoefficient {
    ghost meaning = { fixed_meaning };

    fn coefficient(&self, density: u32) -> Result<u64, Refusal> {
        if !(LEAST_DENSITY..=GREATEST_DENSITY).contains(&density) {
            return Err(not_covered(density));
        }
        Ok(100_000 * u64::from(self.value))
    }
}
