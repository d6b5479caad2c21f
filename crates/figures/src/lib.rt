//! The checked figures: answers known from outside, proved of the definitions that every contract cites, and run.
#![tactic(auto)]

ghost use Rattle.figures.specs.Figures.{Holds, checked_figures};
ghost use Rattle.std.specs.List.{AllByRecursion};

#[cfg(test)]
mod tests;

/// Every checked figure holds.
pub fn checked_figures_hold()
    ensures { AllByRecursion Holds checked_figures }
{}
