//! Calls as values, and whole histories of them.
#![tactic(auto)]

pub mod call;
pub mod laws;
pub mod run;
