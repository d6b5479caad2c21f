//! What the program is asked on its command line.
use crate::chart::Style;
use std::io::Read;
use std::{env, fmt, fs, io};

pub const HELP: &str = "depot: litres from a tank's survey

usage: depot [--raw] [FILE]

Reads a journal from FILE, or from standard input, checks all of it, and
answers each dip in it. A journal is text; # begins a comment.

  survey DATE strapped             a survey by rows, DATE as YYYYMMDD
  row HEIGHT LITRES                a row of it, from the bottom up
  survey DATE upright HEIGHT Q     an upright tank of Q litres to the metre
  datum RISE                       the dips' datum stands RISE above the table's
  limit HEIGHT                     no dip above HEIGHT is answered
  dip HEIGHT                       what does the tank hold up to HEIGHT?

Heights are whole tenths of a millimetre, litres are whole litres.

  --raw    one line for each dip, in whole numbers, for other programs:
           LINE dip height=HEIGHT tenths=TENTHS_OF_A_LITRE
           LINE refused LAYER NUMBER PLACE
  --help   this text";

#[derive(Drop)]
pub enum Request {
    Help,
    Answers { style: Style, source: Source },
}

/// Where a journal comes from.
#[derive(Drop)]
pub enum Source {
    File(String),
    StandardInput,
}

impl Source {
    pub(crate) fn read(&self, rt: &HostRuntime) -> io::Result<Vec<u8>> {
        match self {
            Source::File(path) => fs::read(rt, path.as_str()),
            Source::StandardInput => {
                let mut text = Vec::new(rt.alloc());
                rt.stdin().read_to_end(&mut text)?;
                Ok(text)
            }
        }
    }
}

impl fmt::Display for Source {
    fn fmt<W: fmt::Write>(&self, f: &mut fmt::Formatter<W>) -> fmt::Result {
        match self {
            Source::File(path) => write!(f, "{path}"),
            Source::StandardInput => write!(f, "standard input"),
        }
    }
}

/// Why a command line is not understood.
#[derive(Drop)]
pub enum Misuse {
    UnknownOption(String),
    SecondFile(String),
    Unreadable(io::Error),
}

impl From<io::Error> for Misuse {
    fn from(e: io::Error) -> Misuse {
        Misuse::Unreadable(e)
    }
}

impl fmt::Display for Misuse {
    fn fmt<W: fmt::Write>(&self, f: &mut fmt::Formatter<W>) -> fmt::Result {
        match self {
            Misuse::UnknownOption(word) => {
                write!(f, "unknown option {word}; depot --help explains")
            }
            Misuse::SecondFile(word) => write!(
                f,
                "one journal at a time, {word} is a second one; depot --help explains"
            ),
            Misuse::Unreadable(e) => write!(f, "the command line cannot be read: {e}"),
        }
    }
}

pub(crate) fn read_arguments(rt: &HostRuntime) -> Result<Request, Misuse> {
    let mut style = Style::Plain;
    let mut source = Source::StandardInput;
    for word in env::args(rt)?.skip(1) {
        match word.as_str() {
            "--help" => return Ok(Request::Help),
            "--raw" => style = Style::Raw,
            text if text.starts_with('-') => return Err(Misuse::UnknownOption(word)),
            _ => match source {
                Source::File(_) => return Err(Misuse::SecondFile(word)),
                Source::StandardInput => source = Source::File(word),
            },
        }
    }
    Ok(Request::Answers { style, source })
}
