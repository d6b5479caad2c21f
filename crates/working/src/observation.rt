//! What a reading is worked out from.
ghost use Rattle.std.specs.Prelude.{◌≤◌};
ghost use Rattle.working.specs.Observations.{Observable};

use super::method::Method;
use super::temperature::Temperature;

pub mod working;

/// Within the limits of tables, shell coefficients and product rules.
#[derive(Clone, Copy, PartialEq, Eq, Debug)]
pub struct Observation {
    /// What the table answers at the level and at the water, in tenths of a litre.
    pub at_level: u64,
    pub at_water: u64,
    /// In units of 10^-7 per °C.
    pub shell: u32,
    pub wall: Temperature,
    pub product: Temperature,
    /// In units of 10^-12 per °C.
    pub coefficient: u64,
    /// In half kilograms per cubic metre at 15 °C.
    pub density: u32,
    pub method: Method,
    ghost limits: { Observable at_level at_water shell coefficient density },
}
