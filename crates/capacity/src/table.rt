//! What every capacity table means and answers.
ghost use Rattle.std.specs.Prelude.{◌≡◌};
ghost use Rattle.capacity.specs.Tables.{TableMeaning, answered, not_covered};

use measure::refusal::{Cause, Refusal};

/// A table means a reach, and an exact volume in litres for each height below it. Heights are tenths of a
/// millimetre. Asking leaves a table as it is.
pub trait CapacityTable {
    ghost meaning: { TableMeaning Self };

    /// The heights below this are covered.
    fn reach(&self) -> u32
        ensures { result ≡ meaning.reach self.now };

    /// The volume at a height in tenths of a litre, rounded. A height that is not covered is refused.
    fn tenths(&self, height: u32) -> Result<u64, Refusal>
        ensures { result ≡ answered meaning self.now height };
}

/// The refusal of a height that the table or layer asked does not cover.
pub(crate) fn not_covered(height: u32) -> Refusal
    ensures { result ≡ not_covered height }
{
    Cause::HeightNotCovered.at(i64::from(height))
}
