//! A journal: what a depot writes down of its tanks, line by line.
#![tactic(auto)]

pub mod entry;
mod place;
pub mod reader;
pub mod verb;
mod words;
pub mod wrong;
