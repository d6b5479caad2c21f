//! What is wrong with a journal line, in words that say what was expected.
use super::verb::Verb;
use std::fmt;

#[derive(Clone, Copy, PartialEq, Eq, Debug)]
pub enum Wrong {
    /// The line begins with no word of the journal.
    UnknownWord,
    /// A survey is neither strapped nor upright.
    UnknownShape,
    /// A word is missing.
    Missing(Verb),
    /// A word that should be a number is none, or is too large.
    Number(Verb),
    /// A word is too much.
    Extra(Verb),
    /// The line may not stand here.
    OutOfPlace(Verb),
}

fn usage(verb: Verb) -> &'static str {
    match verb {
        Verb::Survey => "survey DATE strapped, or survey DATE upright HEIGHT LITRES_PER_METRE",
        Verb::Row => "row HEIGHT LITRES",
        Verb::Datum => "datum RISE",
        Verb::Limit => "limit HEIGHT",
        Verb::Dip => "dip HEIGHT",
    }
}

fn place(verb: Verb) -> &'static str {
    match verb {
        Verb::Survey => "a survey may stand anywhere",
        Verb::Row => "a row stands under survey DATE strapped, before datum, limit and dip",
        Verb::Datum => "one datum may stand under a survey and its rows, before limit and dip",
        Verb::Limit => "one limit may stand under a survey, its rows and its datum, before dip",
        Verb::Dip => "a dip stands under a survey",
    }
}

impl fmt::Display for Wrong {
    fn fmt<W: fmt::Write>(&self, f: &mut fmt::Formatter<W>) -> fmt::Result {
        match *self {
            Wrong::UnknownWord => write!(
                f,
                "unknown word; expected survey, row, datum, limit or dip"
            ),
            Wrong::UnknownShape => write!(
                f,
                "unknown kind of survey; expected strapped or upright after the date"
            ),
            Wrong::Missing(verb) => write!(f, "a word is missing; expected {}", usage(verb)),
            Wrong::Number(verb) => write!(
                f,
                "not a whole number from 0 to 4294967295; expected {}",
                usage(verb)
            ),
            Wrong::Extra(verb) => write!(f, "a word too many; expected {}", usage(verb)),
            Wrong::OutOfPlace(verb) => write!(f, "out of place; expected that {}", place(verb)),
        }
    }
}
