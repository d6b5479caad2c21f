//! Product rules: how much a product expands, from its density.
#![tactic(auto)]

pub mod api;
pub mod fixed;
pub mod limits;
pub mod rule;
