//! What every product rule means.
ghost use Rattle.std.specs.Prelude.{◌≡◌, pos};
ghost use Rattle.measure.specs.Refusals.{refusal};
ghost use Rattle.measure.specs.declared.refusal.Cause.TheVariants.{DensityOutside};
ghost use Rattle.product.specs.Rules.{RuleMeaning, answered};

use measure::refusal::{Cause, Refusal};

/// A rule means a range of densities, in half kilograms per cubic metre at 15 °C, and for each of them an exact
/// coefficient per °C. Asking leaves it as it is.
pub trait ProductRule {
    ghost meaning: { RuleMeaning Self };

    /// The coefficient at a density times 10^12, rounded. A density outside the range is refused.
    fn coefficient(&self, density: u32) -> Result<u64, Refusal>
        ensures { result ≡ answered meaning self.now density };
}

/// The refusal of a density outside a rule's range.
pub(crate) fn not_covered(density: u32) -> Refusal
    ensures { result ≡ refusal DensityOutside (pos density) }
{
    Cause::DensityOutside.at(i64::from(density))
}
