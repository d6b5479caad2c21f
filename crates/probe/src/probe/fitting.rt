//! Fitting elements, and giving one of them a temperature.
ghost use Rattle.std.specs.Prelude.{◌≡◌, ◌≤◌, [], length};
ghost use Rattle.probe.specs.Elements.{lowest_free};
ghost use Rattle.probe.specs.Probes.{most_elements, fitted_in, fit_refusal, hear_refusal, after_fit, after_hearing, done_unless};

use super::super::element::{ElementState, ProbeElement};
use super::{Entries, MOST_ELEMENTS, Probe};
use measure::limits::HIGHEST_LEVEL;
use measure::refusal::{Cause, Refusal};

const UNFITTED: ProbeElement = ProbeElement {
    height: 0,
    state: ElementState::Unheard,
};

impl Probe {
    /// A probe without elements.
    pub fn new() -> Probe
        ensures { fitted_in result ≡ [] }
    {
        Probe {
            entries: Entries {
                list: [UNFITTED; MOST_ELEMENTS],
            },
            fitted: 0,
        }
    }

    /// The elements that are fitted, from the bottom up.
    pub fn elements(&self) -> &[ProbeElement]
        ensures value { result.now ≡ fitted_in self.now }
        ensures few { length result.now ≤ most_elements }
    {
        &self.entries.list[..self.fitted]
    }

    /// The lowest height at which another element can be fitted.
    fn lowest_free(&self) -> u32
        ensures { result ≡ lowest_free (fitted_in self.now) }
    {
        self.elements()
            .last()
            .map_or(0, |element| element.height + 1)
    }

    /// Fits an element above the others. It has no temperature yet.
    pub fn fit(&mut self, height: u32) -> Result<(), Refusal>
        ensures answer { result ≡ done_unless (fit_refusal (fitted_in self.old) height) }
        ensures after { fitted_in self.new ≡ after_fit (fitted_in self.old) height }
    {
        if self.fitted >= MOST_ELEMENTS {
            return Err(Cause::ProbeFull.at(MOST_ELEMENTS as i64));
        }
        if !(self.lowest_free()..=HIGHEST_LEVEL).contains(&height) {
            return Err(Cause::ElementHeight.at(i64::from(height)));
        }
        self.entries.list[self.fitted] = ProbeElement {
            height,
            state: ElementState::Unheard,
        };
        self.fitted += 1;
        Ok(())
    }

    /// Gives element `number`, counted from 1, a temperature in hundredths of a °C. No other entry changes.
    pub fn hear(&mut self, number: u32, hundredths: i32) -> Result<(), Refusal>
        ensures answer { result ≡ done_unless (hear_refusal (fitted_in self.old) number) }
        ensures after { fitted_in self.new ≡ after_hearing (fitted_in self.old) number hundredths }
    {
        if number < 1 || number as usize > self.fitted {
            return Err(Cause::ElementNotFitted.at(i64::from(number)));
        }
        let entry = &mut self.entries.list[number as usize - 1];
        entry.hear(hundredths);
        Ok(())
    }
}
