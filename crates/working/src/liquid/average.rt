//! The average temperature of the liquid.
ghost use Rattle.std.specs.Prelude.{◌≡◌};
ghost use Rattle.working.specs.Averages.{average};
ghost use Rattle.working.specs.AverageLaws.{AverageLaws};

use super::super::temperature::Temperature;
use super::Liquid;
use measure::rounding::rounded_signed_quotient;

impl<'a> Liquid<'a> {
    /// Each element weighs the doubled height of liquid from midway to the one below it, or from the water, to midway
    /// to the one above, or to the level.
    pub fn average(&self) -> Temperature
        ensures { result.ten_millionths ≡ average self.now.elements.now self.now.water self.now.level }
    {
        let mut sum: i64 = 0;
        let mut from = 2 * self.water;
        for (i, element) in self.elements.iter().enumerate() {
            let to = self
                .elements
                .get(i + 1)
                .map_or(2 * self.level, |above| element.height + above.height);
            sum += i64::from(to - from) * i64::from(element.hundredths);
            from = to;
        }
        let weights = u64::from(2 * (self.level - self.water));
        Temperature {
            ten_millionths: rounded_signed_quotient(100_000 * sum, weights),
        }
    }
}

/// The weights add up to twice the height of liquid, and the average lies between the coldest and the warmest element.
pub fn averages_keep_their_laws()
    ensures { AverageLaws }
{}
