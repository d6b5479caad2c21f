//! The whole-number working of one reading: from what was observed to litres and kilograms.
#![tactic(auto)]

mod correction;
pub mod element;
pub mod figures;
pub mod liquid;
mod mass;
pub mod method;
pub mod observation;
pub mod temperature;
mod unit;
mod volume;
mod wall;
