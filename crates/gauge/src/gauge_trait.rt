//! What every gauge means.
ghost use Rattle.std.specs.Prelude.{◌≡◌};
ghost use Rattle.gauge.specs.Gauges.{GaugeMeaning};

use super::sample::Sample;
use measure::refusal::Refusal;

/// A gauge says a level or a fault at each moment, and a sample may change what it holds.
pub trait Gauge {
    ghost meaning: { GaugeMeaning Self };

    /// The level in tenths of a millimetre, or why there is none. Telling changes nothing.
    fn tell(&self) -> Result<u32, Refusal>
        ensures { result ≡ meaning.says self.now };

    /// Takes a sample. One outside its limits changes nothing.
    fn take(&mut self, sample: Sample)
        ensures { self.new ≡ meaning.after self.old sample };
}
