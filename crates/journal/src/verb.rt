//! The words that begin a line.
ghost use Rattle.std.specs.Prelude.{◌≡◌};
ghost use Rattle.journal.specs.Entries.{verb_of};

#[derive(Clone, Copy, PartialEq, Eq, Debug)]
pub enum Verb {
    Survey,
    Row,
    Datum,
    Limit,
    Dip,
}

impl Verb {
    pub(crate) fn of(word: &[u8]) -> Option<Verb>
        ensures { result ≡ verb_of word.now }
    {
        match word {
            b"survey" => Some(Verb::Survey),
            b"row" => Some(Verb::Row),
            b"datum" => Some(Verb::Datum),
            b"limit" => Some(Verb::Limit),
            b"dip" => Some(Verb::Dip),
            _ => None,
        }
    }
}
