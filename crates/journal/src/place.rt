//! Where a line may stand.
ghost use Rattle.std.specs.Prelude.{◌≡◌};
ghost use Rattle.journal.specs.Places.{placed};

use super::entry::Entry;
use super::verb::Verb;
use super::wrong::Wrong;

/// How far a journal has come: what the last entry was.
#[derive(Clone, Copy, PartialEq, Eq, Debug)]
pub(crate) enum Stage {
    Start,
    /// A strapped survey or one of its rows.
    Rows,
    /// An upright survey.
    Walls,
    Datum,
    Limit,
    Dips,
}

impl Stage {
    /// The stage after an entry, or that the entry may not stand here.
    pub(crate) fn after(self, entry: Entry) -> Result<Stage, Wrong>
        ensures { result ≡ placed self entry }
    {
        match (self, entry) {
            (_, Entry::Strapped { .. }) => Ok(Stage::Rows),
            (_, Entry::Upright { .. }) => Ok(Stage::Walls),
            (Stage::Rows, Entry::Row(_)) => Ok(Stage::Rows),
            (_, Entry::Row(_)) => Err(Wrong::OutOfPlace(Verb::Row)),
            (Stage::Rows | Stage::Walls, Entry::Datum(_)) => Ok(Stage::Datum),
            (_, Entry::Datum(_)) => Err(Wrong::OutOfPlace(Verb::Datum)),
            (Stage::Rows | Stage::Walls | Stage::Datum, Entry::Limit(_)) => Ok(Stage::Limit),
            (_, Entry::Limit(_)) => Err(Wrong::OutOfPlace(Verb::Limit)),
            (Stage::Start, Entry::Dip(_)) => Err(Wrong::OutOfPlace(Verb::Dip)),
            (_, Entry::Dip(_)) => Ok(Stage::Dips),
        }
    }
}
