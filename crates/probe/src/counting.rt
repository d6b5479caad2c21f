//! The elements that count in a reading.
ghost use Rattle.std.specs.Prelude.{◌≤◌};
ghost use Rattle.probe.specs.Probes.{most_elements};

use super::probe::MOST_ELEMENTS;
use working::element::CountingElement;

pub mod selecting;

/// At most sixteen, from the bottom up, and a word with bit n - 1 set for each element n that counts.
#[derive(Clone, Copy, PartialEq, Eq, Debug)]
pub struct Counting {
    list: [CountingElement; MOST_ELEMENTS],
    count: usize,
    word: u16,
    ghost few: { count ≤ most_elements },
}
