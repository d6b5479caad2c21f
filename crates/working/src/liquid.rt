//! The liquid of a tank, from the water up to the level.
ghost use Rattle.std.specs.Prelude.{◌≡◌, true};
ghost use Rattle.working.specs.Averages.{liquid_right};

use super::element::CountingElement;

pub mod average;

/// With the probe elements that count in it, at least one, from the bottom up.
#[derive(Clone, Copy, PartialEq, Eq, Debug)]
pub struct Liquid<'a> {
    pub elements: &'a [CountingElement],
    pub water: u32,
    pub level: u32,
    ghost right: { liquid_right elements.now water level ≡ true },
}
