//! A temperature probe: up to sixteen elements, and which of them count in a reading.
#![tactic(auto)]

pub mod counting;
pub mod element;
pub mod probe;
