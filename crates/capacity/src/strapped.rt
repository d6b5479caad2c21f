//! A strapped table: sealed rows, with straight lines between them.
ghost use Rattle.std.specs.Prelude.{◌≡◌, true, []};
ghost use Rattle.capacity.specs.Rows.{sound};

use super::row::Row;

pub mod lookup;

/// Rows held for reading, in which examination finds nothing; the blank table has none.
#[derive(Clone, Copy)]
pub struct Strapped<'a> {
    rows: &'a [Row],
    ghost examined: { sound rows.now ≡ true },
}

impl<'a> Strapped<'a> {
    pub(crate) fn over(rows: &'a [Row]) -> Strapped<'a>
        requires { sound rows.now ≡ true }
        ensures { result.rows.now ≡ rows.now }
    {
        Strapped { rows }
    }

    /// The table that covers nothing.
    pub fn blank() -> Strapped<'a>
        ensures { result.rows.now ≡ [] }
    {
        Strapped { rows: &[] }
    }
}
