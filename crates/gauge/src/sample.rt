//! What an instrument sends.
ghost use Rattle.std.specs.Prelude.{◌≡◌};
ghost use Rattle.gauge.specs.Samples.{signal_wrong, first_wrong};

use measure::limits::HIGHEST_LEVEL;

/// A level in tenths of a millimetre, or a fault code.
#[derive(Clone, Copy, PartialEq, Eq, Debug)]
pub enum Signal {
    Level(u32),
    Fault(u32),
}

#[derive(Clone, Copy, PartialEq, Eq, Debug)]
pub struct Sample {
    pub instrument: u32,
    pub signal: Signal,
}

pub(crate) const LAST_INSTRUMENT: u32 = 2;

const LAST_FAULT_CODE: u32 = 255;

impl Signal {
    /// The number of the signal, where it is outside its limits.
    fn wrong(self) -> Option<u32>
        ensures { result ≡ signal_wrong self }
    {
        match self {
            Signal::Level(0..=HIGHEST_LEVEL) | Signal::Fault(1..=LAST_FAULT_CODE) => None,
            Signal::Level(number) | Signal::Fault(number) => Some(number),
        }
    }
}

impl Sample {
    /// The first number outside its limits, the instrument before the level or the code; none where all are within.
    pub fn first_wrong(&self) -> Option<u32>
        ensures { result ≡ first_wrong self.now }
    {
        match self.instrument {
            1..=LAST_INSTRUMENT => self.signal.wrong(),
            number => Some(number),
        }
    }
}
