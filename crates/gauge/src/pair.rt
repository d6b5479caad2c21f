//! Two gauges on one tank.
ghost use Rattle.std.specs.Prelude.{◌≡◌};
ghost use Rattle.gauge.specs.Pairs.{pair_meaning};

use super::gauge_trait::Gauge;
use super::sample::Sample;
use measure::refusal::Refusal;

/// Gives every sample to both. Says the first's level, else the second's level, else the first's fault.
#[derive(Drop)]
pub struct Pair<A, B> {
    first: A,
    second: B,
}

impl<A, B> Pair<A, B> {
    pub fn new(first: A, second: B) -> Pair<A, B>
        ensures first { result.first ≡ first }
        ensures second { result.second ≡ second }
    {
        Pair { first, second }
    }
}

impl<A: Gauge, B: Gauge> Gauge for Pair<A, B> {
    ghost meaning = { pair_meaning A.Gauge.meaning B.Gauge.meaning };

    fn tell(&self) -> Result<u32, Refusal> {
        self.first
            .tell()
            .or_else(|fault| self.second.tell().map_err(|_| fault))
    }

    fn take(&mut self, sample: Sample) {
        self.first.take(sample);
        self.second.take(sample);
    }
}
