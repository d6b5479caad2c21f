//! A reading: what a tank holds at one moment.
ghost use Rattle.std.specs.Prelude.{◌≤◌};
ghost use Rattle.working.specs.Limits.{most_standard, most_mass};

use working::method::Method;

/// Heights are tenths of a millimetre, volumes tenths of a litre. The limits of standard volume and mass are a part of
/// the type, so that differences of two readings fit.
#[derive(Clone, Copy)]
pub struct Reading {
    pub tank: u32,
    /// Of the survey in force, YYYYMMDD.
    pub date: u32,
    pub method: Method,
    /// In half kilograms per cubic metre at 15 °C.
    pub density: u32,
    pub level: u32,
    pub water: u32,
    /// The average, in ten-millionths of a °C.
    pub temperature: i64,
    /// In units of 10^-9.
    pub correction: u64,
    pub gross: u64,
    pub standard: u64,
    /// In kilograms.
    pub mass: u64,
    /// Bit n - 1 is set for each counting element n.
    pub elements: u16,
    pub count: u32,
    ghost limits: { (standard ≤ most_standard) × (mass ≤ most_mass) },
}
