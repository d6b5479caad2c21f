//! A surveyor's report on a tank, and the table that is made of it.
#![tactic(auto)]

pub mod surveyed;
pub mod tank;
