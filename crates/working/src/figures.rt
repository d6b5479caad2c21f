//! The figures of a reading.
ghost use Rattle.std.specs.Prelude.{◌≤◌};
ghost use Rattle.working.specs.Limits.{most_standard, most_mass};

/// Factor and correction are in units of 10^-9, volumes in tenths of a litre, the mass in kilograms.
#[derive(Clone, Copy, PartialEq, Eq, Debug)]
pub struct Figures {
    pub wall_factor: u64,
    pub gross: u64,
    pub correction: u64,
    pub standard: u64,
    pub mass: u64,
    ghost limits: { (standard ≤ most_standard) × (mass ≤ most_mass) },
}
