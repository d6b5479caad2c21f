//! A probe with its elements, from the bottom up.
ghost use Rattle.std.specs.Prelude.{◌≡◌, true};
ghost use Rattle.probe.specs.Elements.{elements_right};

use super::element::ProbeElement;

pub mod fitting;

pub(crate) const MOST_ELEMENTS: usize = 16;

/// The entries of sixteen elements.
#[derive(Clone, Copy, PartialEq, Eq, Debug)]
pub struct Entries {
    list: [ProbeElement; MOST_ELEMENTS],
}

/// The first `fitted` entries are in use: their heights rise strictly, and a good temperature is within its limits.
#[derive(Clone, Copy, PartialEq, Eq, Debug)]
pub struct Probe {
    entries: Entries,
    fitted: usize,
    ghost right: { elements_right entries.list fitted ≡ true },
}
