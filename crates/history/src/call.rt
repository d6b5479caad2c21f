//! A call of a tank computer as a value, and its answer.
use computer::dated_table::DatedTable;
use computer::reading::Reading;
use gauge::sample::Sample;
use measure::refusal::Refusal;

#[derive(Drop)]
pub enum Call<T> {
    Adopt(DatedTable<T>),
    Sample(Sample),
    Water(u32),
    Fit(u32),
    /// The element's number, from 1, and its temperature in hundredths of a °C.
    Element { number: u32, hundredths: i32 },
    Density(u32),
    Shell(u32),
    /// By a method of mass.
    Read(u32),
}

/// What a call gives that is served.
#[derive(Clone, Copy)]
pub enum Outcome {
    Done,
    Reading(Reading),
}

pub type Answer = Result<Outcome, Refusal>;
