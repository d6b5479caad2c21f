//! A table asked from a datum that stands above its own.
ghost use Rattle.std.specs.Prelude.{◌≡◌};
ghost use Rattle.capacity.specs.Layers.{counted_rise, raised_meaning};

use super::table::{CapacityTable, not_covered};
use measure::limits::LARGEST_REACH;
use measure::refusal::Refusal;

/// The height `h` means `h + rise` of the table below.
#[derive(Drop)]
pub struct RaisedDatum<T> {
    below: T,
    rise: u32,
}

impl<T> RaisedDatum<T> {
    pub fn new(below: T, rise: u32) -> RaisedDatum<T>
        ensures table { result.below ≡ below }
        ensures rise { result.rise ≡ counted_rise rise }
    {
        RaisedDatum {
            below,
            rise: rise.min(LARGEST_REACH),
        }
    }
}

impl<T: CapacityTable> CapacityTable for RaisedDatum<T> {
    ghost meaning = { raised_meaning T.CapacityTable.meaning };

    fn reach(&self) -> u32 {
        self.below.reach().saturating_sub(self.rise)
    }

    fn tenths(&self, height: u32) -> Result<u64, Refusal> {
        if height >= self.reach() {
            return Err(not_covered(height));
        }
        Ok(self.below.tenths(height + self.rise)?)
    }
}
