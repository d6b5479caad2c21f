//! The dip chart of a journal: every survey, and an answer for each dip under it.
use journal::entry::Entry;
use journal::reader::NumberedEntry;
use measure::limits::HIGHEST_LEVEL;
use measure::refusal::Refusal;
use measure::tenths::Tenths;
use sections::{DatedSurvey, Sections, rows_of, survey_of};
use std::alloc::Global;
use std::io;
use std::io::Write;
use survey::tank::{Shape, SurveyedTank};

/// How answers are written: for other programs, or for people.
#[derive(Clone, Copy, PartialEq, Eq)]
pub enum Style {
    Raw,
    Plain,
}

/// The dip chart, as it is written out.
#[derive(Drop)]
pub(crate) struct Chart<W> {
    pub(crate) heap: Global,
    pub(crate) out: W,
    pub(crate) style: Style,
}

impl<W: Write> Chart<W> {
    pub(crate) fn write(&mut self, entries: &[NumberedEntry]) -> io::Result<()> {
        for section in Sections::of(entries) {
            self.write_section(section)?;
        }
        Ok(())
    }

    /// One survey and the dips under it.
    fn write_section(&mut self, section: &[NumberedEntry]) -> io::Result<()> {
        let rows = rows_of(self.heap, section)?;
        let Some(dated) = survey_of(section, rows.as_slice()) else {
            return Ok(());
        };
        let tank = SurveyedTank::of(&dated.survey);
        if self.style == Style::Plain {
            self.write_heading(&dated, &tank)?;
        }
        for numbered in section {
            if let Entry::Dip(height) = numbered.entry {
                self.write_dip(numbered.line, height, tank.dip(height))?;
            }
        }
        Ok(())
    }

    /// What was surveyed, and what the table of it covers.
    fn write_heading(&mut self, dated: &DatedSurvey, tank: &SurveyedTank) -> io::Result<()> {
        let DatedSurvey { date, survey } = *dated;
        match survey.shape {
            Shape::Strapped(rows) => {
                write!(self.out, "Survey {date}, strapped, rows: {}", rows.len())?;
            }
            Shape::Upright {
                height,
                litres_per_metre,
            } => write!(
                self.out,
                "Survey {date}, upright, {} mm high, {litres_per_metre} litres to the metre",
                Tenths::from(height)
            )?,
        }
        if survey.datum > 0 {
            write!(
                self.out,
                ", datum raised by {} mm",
                Tenths::from(survey.datum)
            )?;
        }
        if survey.limit < HIGHEST_LEVEL {
            write!(self.out, ", filled up to {} mm", Tenths::from(survey.limit))?;
        }
        let reach = tank.reach();
        if let Some(refusal) = tank.refused() {
            writeln!(self.out, "\n  no table: {refusal}")
        } else if reach == 0 {
            writeln!(self.out, "\n  covers no height")
        } else {
            writeln!(
                self.out,
                "\n  covers 0.0 mm to {} mm",
                Tenths::from(reach - 1)
            )
        }
    }

    fn write_dip(
        &mut self,
        line: u32,
        height: u32,
        answer: Result<u64, Refusal>,
    ) -> io::Result<()> {
        let millimetres = Tenths::from(height);
        match (self.style, answer) {
            (Style::Raw, Ok(tenths)) => {
                writeln!(self.out, "{line} dip height={height} tenths={tenths}")
            }
            (Style::Raw, Err(refusal)) => {
                writeln!(self.out, "{line} refused {}", refusal.numbers())
            }
            (Style::Plain, Ok(tenths)) => writeln!(
                self.out,
                "  line {line}: {millimetres} mm holds {} litres",
                Tenths::from(tenths)
            ),
            (Style::Plain, Err(refusal)) => writeln!(
                self.out,
                "  line {line}: {millimetres} mm refused: {refusal}"
            ),
        }
    }
}
