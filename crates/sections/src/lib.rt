//! The part of a journal that belongs to one survey: the survey and what stands under it.
#![tactic(auto)]

ghost use Rattle.std.specs.Prelude.{◌≡◌, ◌<◌, ◌≤◌, length, IfOk, None, MatchOption};
ghost use Rattle.std.specs.Iterator.{at_most};
ghost use Rattle.std.specs.Option.{unwrap_or};
ghost use Rattle.measure.specs.Limits.{highest_level};
ghost use Rattle.sections.specs.Sections.{begins_survey, entries_under, section_length, entries_left, GivesSection, row_of, rows_in, datum_of, limit_of, first_height, section_date, SurveyOf};

use capacity::row::Row;
use journal::entry::Entry;
use journal::reader::NumberedEntry;
use measure::limits::HIGHEST_LEVEL;
use std::alloc::{AllocError, Global};
use survey::tank::{Shape, Survey};

/// A survey and its date, YYYYMMDD.
#[derive(Clone, Copy)]
pub struct DatedSurvey<'a> {
    pub date: u32,
    pub survey: Survey<'a>,
}

/// How many entries the first survey takes up with what stands under it.
pub fn section_length(entries: &[NumberedEntry]) -> usize
    ensures value { result ≡ section_length entries.now }
    ensures bound { result ≤ length entries.now }
    ensures some { 0 < length entries.now → 0 < result }
{
    match entries.split_first() {
        Some((_survey, rest)) => 1 + under_survey(rest),
        None => 0,
    }
}

/// The sections of a journal, one after the other.
#[derive(Drop)]
pub struct Sections<'a> {
    rest: &'a [NumberedEntry],
}

impl<'a> Sections<'a> {
    pub fn of(entries: &'a [NumberedEntry]) -> Sections<'a>
        ensures { entries_left result ≡ entries.now }
    {
        Sections { rest: entries }
    }
}

impl<'a> Iterator for Sections<'a> {
    type Item = &'a [NumberedEntry];

    ghost next_gives = { λ sections section after.
        GivesSection (entries_left sections) section (entries_left after) };

    ghost remaining = { λ sections. at_most (length (entries_left sections)) };

    fn next(&mut self) -> Option<&'a [NumberedEntry]> {
        let (section, rest) = self.rest.split_at(section_length(self.rest));
        self.rest = rest;
        (!section.is_empty()).then_some(section)
    }
}

/// The rows of a section.
pub fn rows_of(heap: Global, entries: &[NumberedEntry]) -> Result<Vec<Row>, AllocError>
    ensures { IfOk result (λ rows. rows.items ≡ rows_in entries.now) }
{
    entries
        .iter()
        .filter_map(|numbered| row_of(numbered.entry))
        .collect(heap)
}

/// The datum of a section, 0 where it has none.
fn datum_of(entries: &[NumberedEntry]) -> u32
    ensures { result ≡ unwrap_or (first_height datum_of entries.now) 0 }
{
    entries
        .iter()
        .find_map(|numbered| match numbered.entry {
            Entry::Datum(rise) => Some(rise),
            _ => None,
        })
        .unwrap_or(0)
}

/// The fill limit of a section, the highest level where it has none.
fn limit_of(entries: &[NumberedEntry]) -> u32
    ensures { result ≡ unwrap_or (first_height limit_of entries.now) highest_level }
{
    entries
        .iter()
        .find_map(|numbered| match numbered.entry {
            Entry::Limit(limit) => Some(limit),
            _ => None,
        })
        .unwrap_or(HIGHEST_LEVEL)
}

/// The survey of a section with the rows that were gathered from it, and its date. None where no survey begins it.
pub fn survey_of<'a>(section: &[NumberedEntry], rows: &'a [Row]) -> Option<DatedSurvey<'a>>
    ensures { MatchOption result (section_date section.now ≡ None) (SurveyOf section.now rows.now) }
{
    let (date, shape) = match section.first()?.entry {
        Entry::Strapped { date } => (date, Shape::Strapped(rows)),
        Entry::Upright {
            date,
            height,
            litres_per_metre,
        } => (
            date,
            Shape::Upright {
                height,
                litres_per_metre,
            },
        ),
        _ => return None,
    };
    let survey = Survey {
        shape,
        datum: datum_of(section),
        limit: limit_of(section),
    };
    Some(DatedSurvey { date, survey })
}

fn is_survey(entry: Entry) -> bool
    ensures { result ≡ begins_survey entry }
{
    matches!(entry, Entry::Strapped { .. } | Entry::Upright { .. })
}

/// How many entries stand before the next survey.
fn under_survey(entries: &[NumberedEntry]) -> usize
    ensures value { result ≡ entries_under entries.now }
    ensures bound { result ≤ length entries.now }
{
    entries
        .iter()
        .position(|numbered| is_survey(numbered.entry))
        .unwrap_or(entries.len())
}

fn row_of(entry: Entry) -> Option<Row>
    ensures { result ≡ row_of entry }
{
    match entry {
        Entry::Row(row) => Some(row),
        _ => None,
    }
}
