//! A tank with upright walls, which needs no rows.
ghost use Rattle.std.specs.Prelude.{◌≤◌};
ghost use Rattle.capacity.specs.Limits.{most_litres_per_metre};
ghost use Rattle.measure.specs.Limits.{highest_level};

pub mod lookup;

/// The height is in tenths of a millimetre.
#[derive(Clone, Copy)]
pub struct Upright {
    height: u32,
    litres_per_metre: u32,
    ghost limits: { (height ≤ highest_level) × (litres_per_metre ≤ most_litres_per_metre) },
}
