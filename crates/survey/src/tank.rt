//! A surveyor's report on a tank, and the table that is made of it.
ghost use Rattle.std.specs.Prelude.{◌≡◌, Some, None, Ok, Err, MatchResult};
ghost use Rattle.survey.specs.SurveyedTables.{surveyed_meaning};
ghost use Rattle.survey.specs.Surveys.{shape_refusal, shape_reach, shape_volume, survey_reach, survey_volume, tank_meaning, tank_refusal, tank_reach, dip_answer, Covers, MadeOf};

use super::surveyed::Surveyed;
use capacity::draft::Draft;
use capacity::fill_limit::FillLimit;
use capacity::raised_datum::RaisedDatum;
use capacity::row::Row;
use capacity::table::CapacityTable;
use capacity::upright::Upright;
use measure::refusal::Refusal;

/// What was surveyed: rows of height and litres, or the walls of an upright tank.
#[derive(Clone, Copy)]
pub enum Shape<'a> {
    Strapped(&'a [Row]),
    Upright { height: u32, litres_per_metre: u32 },
}

/// The datum stands on the table and the fill limit above it. A datum of 0 and a limit of 400,000 change nothing.
#[derive(Clone, Copy)]
pub struct Survey<'a> {
    pub shape: Shape<'a>,
    pub datum: u32,
    pub limit: u32,
}

/// The fill limit above the datum above the table of what was surveyed.
type TankTable<'a> = FillLimit<RaisedDatum<Surveyed<'a>>>;

/// A surveyed tank: the table of its survey, or why none can be made of it.
#[derive(Drop)]
pub struct SurveyedTank<'a> {
    table: Result<TankTable<'a>, Refusal>,
}

impl<'a> SurveyedTank<'a> {
    pub fn of(survey: &Survey<'a>) -> SurveyedTank<'a>
        ensures { MadeOf survey.now result }
    {
        SurveyedTank {
            table: survey.table(),
        }
    }

    /// Why no table could be made of the survey.
    pub fn refused(&self) -> Option<Refusal>
        ensures { result ≡ tank_refusal self.now }
    {
        self.table().err()
    }

    /// The heights below this are covered: none where the survey is refused.
    pub fn reach(&self) -> u32
        ensures { result ≡ tank_reach self.now }
    {
        self.table().map_or(0, |table| table.reach())
    }

    /// The tenths of a litre at a height, or the refusal of the survey, or of the height.
    pub fn dip(&self, height: u32) -> Result<u64, Refusal>
        ensures { result ≡ dip_answer self.now height }
    {
        Ok(self.table()?.tenths(height)?)
    }

    fn table(&self) -> Result<&TankTable<'a>, Refusal>
        ensures { MatchResult result (λ table. self.now.table ≡ Ok table.now) (λ e. self.now.table ≡ Err e) }
    {
        self.table.as_ref().map_err(|refusal| *refusal)
    }
}

impl<'a> Survey<'a> {
    fn table(&self) -> Result<TankTable<'a>, Refusal>
        ensures { MatchResult result
            (λ table. (shape_refusal self.now.shape ≡ None)
            × Covers tank_meaning table (survey_reach self.now) (survey_volume self.now))
            (λ e. shape_refusal self.now.shape ≡ Some e) }
    {
        let table = self.shape.table()?;
        Ok(FillLimit::new(RaisedDatum::new(table, self.datum), self.limit))
    }
}

impl<'a> Shape<'a> {
    /// The table of what was surveyed, before the layers.
    fn table(self) -> Result<Surveyed<'a>, Refusal>
        ensures { MatchResult result
            (λ table. (shape_refusal self.entry ≡ None)
            × Covers surveyed_meaning table (shape_reach self.entry) (shape_volume self.entry))
            (λ e. shape_refusal self.entry ≡ Some e) }
    {
        match self {
            Shape::Strapped(rows) => {
                let draft = Draft::of(rows);
                let refused = draft.examine();
                let table = Surveyed::Strapped(draft.seal());
                match refused {
                    Some(refusal) => Err(refusal),
                    None => Ok(table),
                }
            }
            Shape::Upright {
                height,
                litres_per_metre,
            } => {
                let upright = Upright::new(height, litres_per_metre)?;
                Ok(Surveyed::Upright(upright))
            }
        }
    }
}
