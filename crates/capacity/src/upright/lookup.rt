//! Making an upright table, and what it answers.
ghost use Rattle.std.specs.Prelude.{◌≡◌, Some, None, MatchResult};
ghost use Rattle.capacity.specs.UprightTables.{upright_refusal, upright_meaning};

use super::super::table::{CapacityTable, not_covered};
use super::Upright;
use measure::limits::HIGHEST_LEVEL;
use measure::refusal::{Cause, Refusal};
use measure::rounding::rounded_quotient;

const MOST_LITRES_PER_METRE: u32 = 5_000_000;

/// Tenths of a millimetre.
const HEIGHTS_PER_METRE: u64 = 10_000;

impl Upright {
    /// A tank over a limit is refused, the height first, and nothing is made.
    pub fn new(height: u32, litres_per_metre: u32) -> Result<Upright, Refusal>
        ensures { MatchResult result
            (λ t. (upright_refusal height litres_per_metre ≡ None)
            × (t.height ≡ height) × (t.litres_per_metre ≡ litres_per_metre))
            (λ e. upright_refusal height litres_per_metre ≡ Some e) }
    {
        if height > HIGHEST_LEVEL {
            return Err(Cause::UprightLimit.at(i64::from(height)));
        }
        if litres_per_metre > MOST_LITRES_PER_METRE {
            return Err(Cause::UprightLimit.at(i64::from(litres_per_metre)));
        }
        Ok(Upright {
            height,
            litres_per_metre,
        })
    }
}

impl CapacityTable for Upright {
    ghost meaning = { upright_meaning };

    fn reach(&self) -> u32 {
        self.height + 1
    }

    fn tenths(&self, height: u32) -> Result<u64, Refusal> {
        if height > self.height {
            return Err(not_covered(height));
        }
        let tenths_times_heights = 10 * u64::from(height) * u64::from(self.litres_per_metre);
        Ok(rounded_quotient(tenths_times_heights, HEIGHTS_PER_METRE))
    }
}
