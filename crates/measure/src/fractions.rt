//! Exact fractions are no code: specs/Fractions.antt defines them for contracts, and this call states their laws.
ghost use Rattle.measure.specs.FractionLaws.{FractionLaws};

/// Fractions are ordered, sums and products keep the order, and distances add up.
pub fn fractions_keep_their_laws()
    ensures { FractionLaws }
{}
