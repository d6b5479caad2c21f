//! Gauges: what tells the level of a tank, or why it cannot.
#![tactic(auto)]

pub mod gate;
pub mod gauge_trait;
pub mod laws;
pub mod pair;
pub mod sample;
pub mod single;
