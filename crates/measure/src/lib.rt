//! What every layer shares: the refusal, the one rounding and the limits. Exact fractions live in specs/.
#![tactic(auto)]

pub mod fractions;
pub mod limits;
pub mod refusal;
pub mod rounding;
pub mod tenths;
