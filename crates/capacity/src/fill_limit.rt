//! A table that is not asked above the height up to which the tank may be filled.
ghost use Rattle.std.specs.Prelude.{◌≡◌, ◌≤◌};
ghost use Rattle.measure.specs.Limits.{highest_level};

pub mod layer;

#[derive(Drop)]
pub struct FillLimit<T> {
    below: T,
    limit: u32,
    ghost within: { limit ≤ highest_level },
}
