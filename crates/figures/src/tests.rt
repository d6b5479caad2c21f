//! Figures from outside, run.
mod gauges;
mod readings;
mod rounding;
mod tables;
mod words;
