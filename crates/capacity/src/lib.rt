//! Capacity tables: what a tank holds at each height, from a survey.
#![tactic(auto)]

pub mod draft;
pub mod fill_limit;
pub mod raised_datum;
pub mod row;
pub mod strapped;
pub mod table;
pub mod upright;
