//! What a single instrument says and keeps.
ghost use Rattle.std.specs.Prelude.{◌≡◌, None};
ghost use Rattle.gauge.specs.Singles.{counted_number, single_meaning};

use super::super::gauge_trait::Gauge;
use super::super::sample::{LAST_INSTRUMENT, Sample, Signal};
use super::SingleInstrument;
use measure::refusal::{Cause, Refusal};

impl SingleInstrument {
    /// An instrument that has heard nothing. Its number is 1 or 2: 0 counts as 1, a larger one as 2.
    pub fn new(number: u32) -> SingleInstrument
        ensures number { result.number ≡ counted_number number }
        ensures heard { result.heard ≡ None }
    {
        SingleInstrument {
            number: number.clamp(1, LAST_INSTRUMENT),
            heard: None,
        }
    }
}

impl Gauge for SingleInstrument {
    ghost meaning = { single_meaning };

    fn tell(&self) -> Result<u32, Refusal> {
        match self.heard {
            Some(Signal::Level(level)) => Ok(level),
            Some(Signal::Fault(code)) => Err(Cause::FaultHeld.at(
                1_000 * i64::from(self.number) + i64::from(code),
            )),
            None => Err(Cause::NothingHeard.at(i64::from(self.number))),
        }
    }

    fn take(&mut self, sample: Sample) {
        if sample.instrument == self.number && sample.first_wrong().is_none() {
            self.heard = Some(sample.signal);
        }
    }
}
