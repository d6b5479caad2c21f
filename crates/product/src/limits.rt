//! The densities that any product rule can cover, in half kilograms per cubic metre at 15 °C.

pub const LEAST_DENSITY: u32 = 1_000;

pub const GREATEST_DENSITY: u32 = 2_400;
