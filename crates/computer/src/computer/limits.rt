//! What holds of every tank computer, whatever was called.
ghost use Rattle.computer.specs.Ledgers.{LedgerAdmitted};

use super::TankComputer;
use capacity::table::CapacityTable;
use gauge::gauge_trait::Gauge;
use product::rule::ProductRule;

impl<G: Gauge, T: CapacityTable, P: ProductRule> TankComputer<G, T, P> {
    /// Its density, its shell coefficient and the elements of its probe are such as its calls admit.
    pub fn keeps_its_limits(&self)
        ensures { LedgerAdmitted P.ProductRule.meaning self.now }
    {
        let _held = &self.shell;
    }
}
