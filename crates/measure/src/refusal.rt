//! A refusal: which layer refuses, by which number, at which place. Every layer refuses with one, and it climbs to
//! the caller as it came.
ghost use Rattle.std.specs.Prelude.{◌≡◌};
ghost use Rattle.measure.specs.Refusals.{layer_of, number_of, refusal, Names};

use super::tenths::Tenths;
use std::fmt;

/// Why a call is refused. specs/Refusals.antt gives each cause its layer and its number.
#[derive(Clone, Copy, PartialEq, Eq, Debug)]
pub enum Cause {
    /// A gauge that holds a fault code. Place: 1,000 times the instrument, plus the code.
    FaultHeld = 10,
    /// A gauge that has heard nothing. Place: the instrument, or 0 for an empty gate.
    NothingHeard = 11,
    /// A gate that has lost the level. Place: the held level.
    GateLost = 12,
    /// A sample with a number outside its limits. Place: the first such number.
    SampleOutside = 13,
    /// A draft of fewer than 2 or more than 256 rows. Place: the count.
    RowCount = 20,
    /// The first row of a draft is not at height 0. Place: 0.
    FirstHeight = 21,
    /// A row that is not above the one before it, or too high. Place: the row, from 0.
    RowHeight = 22,
    /// A row that holds less than the one before it, or too much. Place: the row, from 0.
    RowLitres = 23,
    /// A height that the table or layer asked does not cover. Place: the height.
    HeightNotCovered = 24,
    /// An upright tank that is too high, or holds too much to the metre. Place: the value.
    UprightLimit = 25,
    /// A density outside the range of the product rule. Place: the density.
    DensityOutside = 30,
    /// A fixed coefficient that is too large. Place: the value.
    CoefficientLimit = 31,
    /// An element number that is not fitted. Place: the number.
    ElementNotFitted = 40,
    /// A probe element that is not above the last one, or too high. Place: its height.
    ElementHeight = 41,
    /// Another probe element where sixteen are fitted. Place: 16.
    ProbeFull = 42,
    /// No good probe element between water and level. Place: the level.
    NoElementCounts = 43,
    /// A method of mass that is neither 1 nor 2. Place: the method.
    MethodUnknown = 50,
    /// A reading before a density was given. Place: 0.
    DensityUnset = 51,
    /// Water that stands as high as the level, or higher. Place: the water.
    WaterAtLevel = 52,
    /// A survey that is not later than the one in force. Place: its date.
    DateNotLater = 53,
    /// A survey whose table covers nothing. Place: its date.
    NothingCovered = 54,
    /// A shell coefficient that is too large. Place: the value.
    ShellLimit = 55,
    /// A water height that is too large. Place: the value.
    WaterLimit = 56,
}

#[derive(Clone, Copy, PartialEq, Eq, Debug)]
pub struct Refusal {
    pub layer: u8,
    pub number: u8,
    pub place: i64,
}

impl Cause {
    fn layer(self) -> u8
        ensures { result ≡ layer_of self }
    {
        match self {
            Cause::FaultHeld | Cause::NothingHeard | Cause::GateLost | Cause::SampleOutside => 1,
            Cause::RowCount
            | Cause::FirstHeight
            | Cause::RowHeight
            | Cause::RowLitres
            | Cause::HeightNotCovered
            | Cause::UprightLimit => 3,
            Cause::DensityOutside | Cause::CoefficientLimit => 4,
            Cause::ElementNotFitted
            | Cause::ElementHeight
            | Cause::ProbeFull
            | Cause::NoElementCounts => 2,
            Cause::MethodUnknown
            | Cause::DensityUnset
            | Cause::WaterAtLevel
            | Cause::DateNotLater
            | Cause::NothingCovered
            | Cause::ShellLimit
            | Cause::WaterLimit => 5,
        }
    }

    fn number(self) -> u8
        ensures { result ≡ number_of self }
    {
        self as u8
    }

    /// The refusal for this cause at a place.
    pub fn at(self, place: i64) -> Refusal
        ensures { result ≡ refusal self place }
    {
        Refusal {
            layer: self.layer(),
            number: self.number(),
            place,
        }
    }
}

impl Refusal {
    /// The cause that has this layer and number, or none where no cause has them.
    pub fn cause(&self) -> Option<Cause>
        ensures { Names result self.now }
    {
        match (self.layer, self.number) {
            (1, 10) => Some(Cause::FaultHeld),
            (1, 11) => Some(Cause::NothingHeard),
            (1, 12) => Some(Cause::GateLost),
            (1, 13) => Some(Cause::SampleOutside),
            (3, 20) => Some(Cause::RowCount),
            (3, 21) => Some(Cause::FirstHeight),
            (3, 22) => Some(Cause::RowHeight),
            (3, 23) => Some(Cause::RowLitres),
            (3, 24) => Some(Cause::HeightNotCovered),
            (3, 25) => Some(Cause::UprightLimit),
            (4, 30) => Some(Cause::DensityOutside),
            (4, 31) => Some(Cause::CoefficientLimit),
            (2, 40) => Some(Cause::ElementNotFitted),
            (2, 41) => Some(Cause::ElementHeight),
            (2, 42) => Some(Cause::ProbeFull),
            (2, 43) => Some(Cause::NoElementCounts),
            (5, 50) => Some(Cause::MethodUnknown),
            (5, 51) => Some(Cause::DensityUnset),
            (5, 52) => Some(Cause::WaterAtLevel),
            (5, 53) => Some(Cause::DateNotLater),
            (5, 54) => Some(Cause::NothingCovered),
            (5, 55) => Some(Cause::ShellLimit),
            (5, 56) => Some(Cause::WaterLimit),
            _ => None,
        }
    }
}

/// No two causes share a number.
pub fn causes_have_their_own_numbers()
    ensures { (a b : Cause) → number_of a ≡ number_of b → a ≡ b }
{}

/// The three numbers of a refusal, for other programs: layer, number and place.
#[derive(Clone, Copy, PartialEq, Eq, Debug)]
pub struct Numbers(Refusal);

impl Refusal {
    /// The refusal, to be written in its three numbers.
    pub fn numbers(self) -> Numbers
        ensures { result.0 ≡ self }
    {
        Numbers(self)
    }
}

impl fmt::Display for Numbers {
    fn fmt<W: fmt::Write>(&self, f: &mut fmt::Formatter<W>) -> fmt::Result {
        write!(f, "{} {} {}", self.0.layer, self.0.number, self.0.place)
    }
}

impl fmt::Display for Refusal {
    /// What was wrong, where, and what to do, with the three numbers.
    fn fmt<W: fmt::Write>(&self, f: &mut fmt::Formatter<W>) -> fmt::Result {
        match self.cause() {
            Some(cause) => explain(f, cause, self.place)?,
            None => write!(f, "the call was refused")?,
        }
        write!(
            f,
            " (layer {}, number {}, place {})",
            self.layer, self.number, self.place
        )
    }
}

fn explain<W: fmt::Write>(f: &mut fmt::Formatter<W>, cause: Cause, place: i64) -> fmt::Result {
    let tenths = Tenths::from(place);
    match cause {
        Cause::FaultHeld => write!(
            f,
            "the gauge holds a fault, {place} names its instrument and code: have the instrument looked at"
        ),
        Cause::NothingHeard => write!(
            f,
            "nothing has been heard from the gauge: wait for its first sample"
        ),
        Cause::GateLost => write!(
            f,
            "the level keeps jumping and is lost near {tenths} mm: wait until it settles"
        ),
        Cause::SampleOutside => write!(
            f,
            "{place} is outside the limits of a sample: look at the instrument that sent it"
        ),
        Cause::RowCount => write!(
            f,
            "a strapped table takes 2 to 256 rows and the survey has {place}: complete the survey or thin out its rows"
        ),
        Cause::FirstHeight => write!(
            f,
            "the first row is not at height 0: begin the survey's rows at the datum"
        ),
        Cause::RowHeight => write!(
            f,
            "row {place}, counted from 0, is not above the row before it or is above 40000.0 mm: correct its height"
        ),
        Cause::RowLitres => write!(
            f,
            "row {place}, counted from 0, holds less than the row before it or more than 200000000 litres: correct its litres"
        ),
        Cause::HeightNotCovered => write!(
            f,
            "the capacity table does not cover the height {tenths} mm: take the dip again or survey the tank up to it"
        ),
        Cause::DensityOutside => write!(
            f,
            "the product rule does not cover the density {place}, in half kilograms per cubic metre: choose the rule of the product"
        ),
        Cause::CoefficientLimit => write!(
            f,
            "the fixed coefficient {place} is above 20000: correct it"
        ),
        Cause::ElementNotFitted => write!(
            f,
            "probe element {place} is not fitted: fit it, or correct the number"
        ),
        Cause::ElementHeight => write!(
            f,
            "a probe element at {tenths} mm is not above the last one fitted or is above 40000.0 mm: fit elements from the bottom up"
        ),
        Cause::ProbeFull => write!(
            f,
            "{place} probe elements are fitted, and there is no room for another: leave it out"
        ),
        Cause::NoElementCounts => write!(
            f,
            "no good probe element lies between the water and the level {tenths} mm: wait for a temperature, or fit an element lower"
        ),
        Cause::MethodUnknown => write!(
            f,
            "{place} is no method of mass: ask for method 1, or for method 2, the mass in air"
        ),
        Cause::DensityUnset => write!(
            f,
            "no density has been given: give the density of the product"
        ),
        Cause::WaterAtLevel => write!(
            f,
            "the water stands at {tenths} mm, as high as the level or higher: take the water dip again"
        ),
        Cause::DateNotLater => write!(
            f,
            "the survey of {place} is not later than the one in force: adopt only a newer survey"
        ),
        Cause::NothingCovered => write!(
            f,
            "the table of the survey of {place} covers no height: correct its datum, its limit or its rows"
        ),
        Cause::ShellLimit => write!(
            f,
            "the shell coefficient {place} is above 300: give it in units of 10^-7 per degree"
        ),
        Cause::WaterLimit => write!(
            f,
            "the water height {tenths} mm is above 40000.0 mm: take the water dip again"
        ),
        Cause::UprightLimit => write!(
            f,
            "{place} is too much for an upright tank, at most 40000.0 mm high and 5000000 litres to the metre: correct the survey"
        ),
    }
}
