//! A draft: rows of a survey that nobody has examined. Only sealing makes a table of it.
ghost use Rattle.std.specs.Prelude.{◌≡◌, ◌<◌, [], ◌∷◌};
ghost use Rattle.capacity.specs.Limits.{most_rows};
ghost use Rattle.capacity.specs.Rows.{examined, examined_above, sealed};

use super::row::Row;
use super::strapped::Strapped;
use measure::limits::{HIGHEST_LEVEL, LARGEST_LITRES};
use measure::refusal::{Cause, Refusal};

const FEWEST_ROWS: usize = 2;

const MOST_ROWS: usize = 256;

/// Neither `Copy` nor `Drop`: a draft is sealed, once.
pub struct Draft<'a> {
    rows: &'a [Row],
}

impl<'a> Draft<'a> {
    pub fn of(rows: &'a [Row]) -> Draft<'a>
        ensures { result.rows.now ≡ rows.now }
    {
        Draft { rows }
    }

    /// The first refusal, or none: the count of rows, the first height, then row by row the height before the litres.
    pub fn examine(&self) -> Option<Refusal>
        ensures { result ≡ examined self.now.rows.now }
    {
        let count = self.rows.len();
        if !(FEWEST_ROWS..=MOST_ROWS).contains(&count) {
            return Some(Cause::RowCount.at(count as i64));
        }
        let first = self.rows[0];
        if first.height != 0 {
            return Some(Cause::FirstHeight.at(0));
        }
        if first.litres > LARGEST_LITRES {
            return Some(Cause::RowLitres.at(0));
        }
        self.rows
            .iter()
            .zip(&self.rows[1..])
            .enumerate()
            .find_map(|(i, (last, row))| row_refusal(i + 1, *last, *row))
    }

    /// The table of the rows, or the blank table where examination refuses them. Uses the draft up.
    pub fn seal(self) -> Strapped<'a>
        ensures { result.rows.now ≡ sealed self.entry.rows.now }
    {
        let refused = self.examine();
        let Draft { rows } = self;
        match refused {
            Some(_) => Strapped::blank(),
            None => Strapped::over(rows),
        }
    }
}

/// What is wrong with the row at place `i`, above the row `last`: the height is asked before the litres.
fn row_refusal(i: usize, last: Row, row: Row) -> Option<Refusal>
    requires { i < most_rows }
    ensures { result ≡ examined_above i last (row ∷ []) }
{
    if row.height <= last.height || row.height > HIGHEST_LEVEL {
        return Some(Cause::RowHeight.at(i as i64));
    }
    if row.litres < last.litres || row.litres > LARGEST_LITRES {
        return Some(Cause::RowLitres.at(i as i64));
    }
    None
}
