//! The tank computer: a gauge, a capacity table, a product rule and a probe, and the readings taken from them.
#![tactic(auto)]

pub mod computer;
pub mod dated_table;
pub mod reading;
