//! Factors and corrections are whole numbers in units of 10^-9.
pub(crate) const UNIT: u64 = 1_000_000_000;
