//! Reading a whole journal. Nothing is answered before all of it is read.
ghost use Rattle.std.specs.Prelude.{◌≡◌};
ghost use Rattle.journal.specs.declared.reader.Fault.TheVariants.{NoMemory};
ghost use Rattle.journal.specs.Journals.{placed_line, journal_of, Reads};
ghost use Rattle.journal.specs.Words.{without_return};

use super::entry::{Entry, entry_of};
use super::place::Stage;
use super::wrong::Wrong;
use std::alloc::{AllocFailed, Global};
use std::fmt;

/// An entry with the number of its line, from 1.
#[derive(Clone, Copy)]
pub struct NumberedEntry {
    pub line: u32,
    pub entry: Entry,
}

/// Why a journal is not read.
#[derive(Clone, Copy)]
pub enum Fault {
    NoMemory,
    /// A journal has fewer than 2^32 - 1 bytes.
    TooLong,
    Line(u32, Wrong),
}

impl fmt::Display for Fault {
    fn fmt<W: fmt::Write>(&self, f: &mut fmt::Formatter<W>) -> fmt::Result {
        match *self {
            Fault::NoMemory => write!(f, "there is not enough memory to read the journal"),
            Fault::TooLong => write!(
                f,
                "the journal is too long; expected fewer than 4294967295 bytes"
            ),
            Fault::Line(line, wrong) => write!(f, "line {line}: {wrong}"),
        }
    }
}

impl<T: Drop> From<AllocFailed<T>> for Fault {
    ghost from_gives = { λ _ fault. fault ≡ NoMemory };

    fn from(_none: AllocFailed<T>) -> Fault {
        Fault::NoMemory
    }
}

const LONGEST: usize = 0xffff_fffe;

/// The entries of a journal, or the first line that is wrong.
pub fn read_journal(heap: Global, text: &[u8]) -> Result<Vec<NumberedEntry>, Fault>
    ensures { Reads result (journal_of text.now) }
{
    if text.len() > LONGEST {
        return Err(Fault::TooLong);
    }
    let mut entries = Vec::new(heap);
    let mut stage = Stage::Start;
    for (i, bytes) in text.split(|byte| *byte == b'\n').enumerate() {
        let line = i as u32 + 1;
        let (entry, next) = place_line(stage, bytes).map_err(|wrong| Fault::Line(line, wrong))?;
        if let Some(entry) = entry {
            entries.push(NumberedEntry { line, entry })?;
        }
        stage = next;
    }
    Ok(entries)
}

/// The entry of a line and the stage after it.
fn place_line(stage: Stage, line: &[u8]) -> Result<(Option<Entry>, Stage), Wrong>
    ensures { result ≡ placed_line stage line.now }
{
    match entry_of(trimmed(line))? {
        Some(entry) => Ok((Some(entry), stage.after(entry)?)),
        None => Ok((None, stage)),
    }
}

/// The line without the carriage return that may end it.
fn trimmed(line: &[u8]) -> &[u8]
    ensures { result.now ≡ without_return line.now }
{
    line.strip_suffix(b"\r").unwrap_or(line)
}
