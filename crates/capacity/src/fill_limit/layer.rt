//! Setting a fill limit, and what the limited table answers.
ghost use Rattle.std.specs.Prelude.{◌≡◌};
ghost use Rattle.capacity.specs.Layers.{counted_limit, limited_meaning};

use super::super::table::{CapacityTable, not_covered};
use super::FillLimit;
use measure::limits::HIGHEST_LEVEL;
use measure::refusal::Refusal;

impl<T> FillLimit<T> {
    pub fn new(below: T, limit: u32) -> FillLimit<T>
        ensures table { result.below ≡ below }
        ensures limit { result.limit ≡ counted_limit limit }
    {
        FillLimit {
            below,
            limit: limit.min(HIGHEST_LEVEL),
        }
    }
}

impl<T: CapacityTable> CapacityTable for FillLimit<T> {
    ghost meaning = { limited_meaning T.CapacityTable.meaning };

    fn reach(&self) -> u32 {
        self.below.reach().min(self.limit + 1)
    }

    fn tenths(&self, height: u32) -> Result<u64, Refusal> {
        if height > self.limit {
            return Err(not_covered(height));
        }
        Ok(self.below.tenths(height)?)
    }
}
