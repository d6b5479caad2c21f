//! The limits of heights and volumes. specs/Limits.antt states the same numbers for contracts.

/// Heights and levels are whole tenths of a millimetre, from 0 to this.
pub const HIGHEST_LEVEL: u32 = 400_000;

/// A capacity table covers the heights below its reach, which is at most this.
pub const LARGEST_REACH: u32 = 400_001;

/// The litres of a table are from 0 to this.
pub const LARGEST_LITRES: u32 = 200_000_000;
