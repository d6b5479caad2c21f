//! A table of either kind, for tanks whose surveys may be of one kind or the other.
ghost use Rattle.survey.specs.SurveyedTables.{surveyed_meaning};

use capacity::strapped::Strapped;
use capacity::table::CapacityTable;
use capacity::upright::Upright;
use measure::refusal::Refusal;

#[derive(Clone, Copy)]
pub enum Surveyed<'a> {
    Strapped(Strapped<'a>),
    Upright(Upright),
}

impl<'a> CapacityTable for Surveyed<'a> {
    ghost meaning = { surveyed_meaning };

    fn reach(&self) -> u32 {
        match self {
            Surveyed::Strapped(table) => table.reach(),
            Surveyed::Upright(table) => table.reach(),
        }
    }

    fn tenths(&self, height: u32) -> Result<u64, Refusal> {
        match self {
            Surveyed::Strapped(table) => table.tenths(height),
            Surveyed::Upright(table) => table.tenths(height),
        }
    }
}
