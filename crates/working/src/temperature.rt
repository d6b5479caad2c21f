//! An average temperature.
ghost use Rattle.working.specs.Limits.{AverageWithin};

pub mod offset;

/// From -40 °C to 150 °C, in ten-millionths of a °C.
#[derive(Clone, Copy, PartialEq, Eq, Debug)]
pub struct Temperature {
    pub ten_millionths: i64,
    ghost within: { AverageWithin ten_millionths },
}
