//! A single instrument, which keeps its own number's last sample.
ghost use Rattle.std.specs.Prelude.{◌≡◌, true};
ghost use Rattle.gauge.specs.Heard.{heard_right};

use super::sample::Signal;

pub mod telling;

#[derive(Clone, Copy)]
pub struct SingleInstrument {
    number: u32,
    heard: Option<Signal>,
    ghost right: { heard_right heard ≡ true },
}
