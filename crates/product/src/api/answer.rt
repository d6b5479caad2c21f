//! What the API rules answer.
ghost use Rattle.std.specs.Prelude.{◌≡◌, ◌-◌, ◌≤◌};
ghost use Rattle.product.specs.ApiRules.{rise, fall, Within, api_meaning};
ghost use Rattle.product.specs.Rules.{greatest_density};

use super::super::rule::{ProductRule, not_covered};
use super::ApiRule;
use super::line::{Line, line_for};
use measure::refusal::Refusal;
use measure::rounding::rounded_quotient;

impl ProductRule for ApiRule {
    ghost meaning = { api_meaning };

    fn coefficient(&self, density: u32) -> Result<u64, Refusal> {
        let line = line_for(*self, density).ok_or_else(|| not_covered(density))?;
        let r = u64::from(density);
        Ok(rounded_quotient(line.numerator(r), r * r))
    }
}

impl Line {
    /// 10^12 times the coefficient, times the square of the density.
    fn numerator(&self, r: u64) -> u64
        requires { (Within self.now r) × (r ≤ greatest_density) }
        ensures { result ≡ rise self.now r - fall self.now r }
    {
        let front = 100_000_000 * (4 * u64::from(self.k0) + 2 * u64::from(self.k1) * r);
        let bend = u64::from(self.k2.unsigned_abs()) * (10_000 * (r * r));
        if self.k2 < 0 {
            front - bend
        } else {
            front + bend
        }
    }
}
