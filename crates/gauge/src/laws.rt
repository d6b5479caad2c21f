//! What a gate keeps over every history, on the contract of a call.
ghost use Rattle.gauge.specs.GateLaws.{GateLaws, GateFollows};

use super::gauge_trait::Gauge;

/// For a gate over any gauge and any samples: what it holds follows from what the gauge below told. So it is lost only
/// after more than its retry number of levels in a row outside the allowance; a level that it says was told below; and
/// a gauge below that tells one level settles it within the retry number plus two samples.
pub fn gates_keep_their_laws<G: Gauge>(_below: &G)
    ensures follows { GateFollows G.Gauge.meaning }
    ensures laws { GateLaws }
{}
