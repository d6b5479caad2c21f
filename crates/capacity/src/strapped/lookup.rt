//! What a strapped table answers.
ghost use Rattle.std.specs.Prelude.{◌≡◌, ◌<◌, ◌≤◌, MatchOption};
ghost use Rattle.capacity.specs.Rows.{rows_reach, rows_volume, line};
ghost use Rattle.capacity.specs.RowSearch.{Spans, Around};
ghost use Rattle.capacity.specs.StrappedTables.{strapped_meaning};
ghost use Rattle.capacity.specs.Tables.{tenths_of};

use super::super::row::Row;
use super::super::table::{CapacityTable, not_covered};
use super::Strapped;
use measure::refusal::Refusal;
use measure::rounding::rounded_quotient;

impl<'a> CapacityTable for Strapped<'a> {
    ghost meaning = { strapped_meaning };

    fn reach(&self) -> u32 {
        self.rows.last().map_or(0, |row| row.height + 1)
    }

    fn tenths(&self, height: u32) -> Result<u64, Refusal> {
        let (low, high) = self.rows_around(height).ok_or_else(|| not_covered(height))?;
        Ok(tenths_on_line(low, high, height))
    }
}

impl<'a> Strapped<'a> {
    /// The neighbouring rows between which the height lies, found by halving, or none where it is not covered.
    fn rows_around(&self, height: u32) -> Option<(Row, Row)>
        ensures { MatchOption result (rows_reach self.now.rows.now ≤ height)
            (λ p. Around self.now.rows.now height p.0 p.1) }
    {
        let mut high = self.rows.len().checked_sub(1)?;
        if height > self.rows[high].height {
            return None;
        }
        let mut low = 1;
        while low < high {
            let middle = low + (high - low) / 2;
            if self.rows[middle].height < height {
                low = middle + 1;
            } else {
                high = middle;
            }
        }
        Some((self.rows[low - 1], self.rows[low]))
    }
}

/// Ten times the litres on the straight line from `low` to `high`, rounded.
fn tenths_on_line(low: Row, high: Row, height: u32) -> u64
    requires { Spans low high height }
    ensures { result ≡ tenths_of (line low high height) }
{
    let run = u64::from(high.height - low.height);
    let rise = u64::from(high.litres - low.litres);
    let above = u64::from(height - low.height);
    rounded_quotient(10 * (u64::from(low.litres) * run + rise * above), run)
}
