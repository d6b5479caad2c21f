//! What a gate holds.

/// Levels are in tenths of a millimetre.
#[derive(Clone, Copy, PartialEq, Eq, Debug)]
pub enum State {
    Empty,
    Settled(u32),
    /// The held level, and how many samples in a row were outside the allowance.
    Suspect { held: u32, count: u32 },
    Lost(u32),
}
