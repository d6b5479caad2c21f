//! Which elements count.
ghost use Rattle.std.specs.Prelude.{◌≡◌, ◌≤◌, length, count_ones};
ghost use Rattle.probe.specs.Counted.{counting, counting_word, chosen};
ghost use Rattle.probe.specs.CountingLaws.{CountingLaws};
ghost use Rattle.probe.specs.Probes.{most_elements, fitted_in};

use super::super::element::ProbeElement;
use super::super::probe::{MOST_ELEMENTS, Probe};
use super::Counting;
use working::element::CountingElement;

impl Probe {
    /// The good elements between the water and the level, both included.
    pub fn counting(&self, water: u32, level: u32) -> Counting
        ensures elements { chosen result ≡ counting water level (fitted_in self.now) }
        ensures word { result.word ≡ counting_word water level (fitted_in self.now) }
    {
        counting_among(self.elements(), water, level)
    }
}

fn counting_among(elements: &[ProbeElement], water: u32, level: u32) -> Counting
    requires { length elements.now ≤ most_elements }
    ensures elements { chosen result ≡ counting water level elements.now }
    ensures word { result.word ≡ counting_word water level elements.now }
{
    let mut list = [CountingElement::default(); MOST_ELEMENTS];
    let mut count = 0;
    let mut word: u16 = 0;
    for (i, element) in elements.iter().enumerate() {
        if let Some(element) = element.counted(water, level) {
            list[count] = element;
            count += 1;
            word |= 1 << i;
        }
    }
    Counting { list, count, word }
}

impl Counting {
    pub fn elements(&self) -> &[CountingElement]
        ensures value { result.now ≡ chosen self.now }
        ensures few { length result.now ≤ most_elements }
    {
        &self.list[..self.count]
    }

    pub fn word(&self) -> u16
        ensures { result ≡ self.now.word }
    {
        self.word
    }

    /// How many elements count: the ones of the word.
    pub fn ones(&self) -> u32
        ensures { result ≡ count_ones self.now.word }
    {
        self.word.count_ones()
    }
}

/// The word has bit n - 1 set exactly for the elements n that count, and as many ones as elements count.
pub fn counting_keeps_its_laws()
    ensures { CountingLaws }
{}
