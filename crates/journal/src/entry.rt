//! One line of a journal.
ghost use Rattle.std.specs.Prelude.{◌≡◌, ℕ};
ghost use Rattle.journal.specs.Entries.{numbered, ended, Makes, number_entry, survey_entry, shape_entry, upright_entry, row_entry, entry_of};
ghost use Rattle.journal.specs.Words.{next_word, after_word};

use super::verb::Verb;
use super::words::{Words, number};
use super::wrong::Wrong;
use capacity::row::Row;

#[derive(Clone, Copy)]
pub enum Entry {
    Strapped {
        date: u32,
    },
    Upright {
        date: u32,
        height: u32,
        litres_per_metre: u32,
    },
    Row(Row),
    Datum(u32),
    Limit(u32),
    Dip(u32),
}

/// The entry of a line, or none where it holds only blanks and a comment.
pub(crate) fn entry_of(line: &[u8]) -> Result<Option<Entry>, Wrong>
    ensures { result ≡ entry_of line.now }
{
    let mut words = Words::of(line);
    let Some(word) = words.next() else {
        return Ok(None);
    };
    let verb = Verb::of(word).ok_or(Wrong::UnknownWord)?;
    let line = Line { verb, words };
    match verb {
        Verb::Survey => line.survey(),
        Verb::Row => line.row(),
        Verb::Datum => line.number_entry(Entry::Datum),
        Verb::Limit => line.number_entry(Entry::Limit),
        Verb::Dip => line.number_entry(Entry::Dip),
    }
}

/// A line: the verb that begins it, and the words after that.
#[derive(Drop)]
struct Line<'a> {
    verb: Verb,
    words: Words<'a>,
}

impl<'a> Line<'a> {
    /// The next word, as a number.
    fn number(&mut self) -> Result<u32, Wrong>
        ensures value { result ≡ numbered self.old.verb (next_word self.old.words.rest.now) }
        ensures verb { self.new.verb ≡ self.old.verb }
        ensures rest { self.new.words.rest.now ≡ after_word self.old.words.rest.now }
    {
        let word = self.words.next().ok_or(Wrong::Missing(self.verb))?;
        number(word).ok_or(Wrong::Number(self.verb))
    }

    /// The entry, where no word follows it.
    fn end(mut self, entry: Entry) -> Result<Option<Entry>, Wrong>
        ensures { result ≡ ended self.entry.verb entry (next_word self.entry.words.rest.now) }
    {
        match self.words.next() {
            Some(_) => Err(Wrong::Extra(self.verb)),
            None => Ok(Some(entry)),
        }
    }

    /// The entry of a number alone.
    fn number_entry<F: FnOnce(u32) -> Entry>(mut self, entry: F) -> Result<Option<Entry>, Wrong>
        requires { F.IsAlwaysCallable entry }
        ensures { (made : ℕ → Entry) → Makes (F.post entry) made →
            result ≡ number_entry self.entry.verb made self.entry.words.rest.now }
    {
        let value = self.number()?;
        self.end(entry(value))
    }

    fn row(mut self) -> Result<Option<Entry>, Wrong>
        ensures { result ≡ row_entry self.entry.verb self.entry.words.rest.now }
    {
        let height = self.number()?;
        let litres = self.number()?;
        self.end(Entry::Row(Row { height, litres }))
    }

    fn survey(mut self) -> Result<Option<Entry>, Wrong>
        ensures { result ≡ survey_entry self.entry.verb self.entry.words.rest.now }
    {
        let date = self.number()?;
        let shape = self.words.next().ok_or(Wrong::Missing(self.verb))?;
        self.shaped_survey(date, shape)
    }

    fn shaped_survey(self, date: u32, shape: &[u8]) -> Result<Option<Entry>, Wrong>
        ensures { result ≡ shape_entry self.entry.verb date shape.now self.entry.words.rest.now }
    {
        match shape {
            b"strapped" => self.end(Entry::Strapped { date }),
            b"upright" => self.upright(date),
            _ => Err(Wrong::UnknownShape),
        }
    }

    fn upright(mut self, date: u32) -> Result<Option<Entry>, Wrong>
        ensures { result ≡ upright_entry self.entry.verb date self.entry.words.rest.now }
    {
        let height = self.number()?;
        let litres_per_metre = self.number()?;
        self.end(Entry::Upright {
            date,
            height,
            litres_per_metre,
        })
    }
}
