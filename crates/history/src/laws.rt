//! What every history keeps, on the contract of a call.
ghost use Rattle.computer.specs.Ledgers.{meanings};
ghost use Rattle.history.specs.Histories.{KeepsLimits};

use capacity::table::CapacityTable;
use gauge::gauge_trait::Gauge;
use product::rule::ProductRule;

/// Whatever is called, and in whatever order, a density that is set stays one that the rule covers, and the shell
/// coefficient stays within its limit.
pub fn histories_keep_their_limits<G: Gauge, T: CapacityTable, P: ProductRule>()
    ensures { KeepsLimits (meanings G.Gauge.meaning T.CapacityTable.meaning P.ProductRule.meaning) }
{}
