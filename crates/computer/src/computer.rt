//! A tank computer, from commissioning on.
use super::dated_table::DatedTable;
use capacity::table::CapacityTable;
use gauge::gauge_trait::Gauge;
use probe::probe::Probe;
use product::rule::ProductRule;
use std::marker::Model;

pub mod calls;
pub mod limits;
pub mod reads;

/// Generic in its gauge, its capacity table and its product rule.
#[derive(Drop)]
pub struct TankComputer<G: Gauge, T: CapacityTable, P: ProductRule> {
    tank: u32,
    gauge: G,
    survey: DatedTable<T>,
    rule: P,
    probe: Probe,
    density: Option<u32>,
    /// In units of 10^-7 per °C.
    shell: u32,
    /// A height in tenths of a millimetre.
    water: u32,
}

/// A computer is its ledger.
impl<G: Gauge, T: CapacityTable, P: ProductRule> Model for TankComputer<G, T, P> {
    ghost use Rattle.computer.specs.Ledgers.{Ledger};

    ghost Value = { Ledger G T P };

    ghost use Rattle.probe.specs.Probes.{fitted_in};

    ghost view = { λ c. record {
      tank = c.tank;
      date = c.survey.date;
      table = c.survey.table;
      gauge = c.gauge;
      rule = c.rule;
      elements = fitted_in c.probe;
      density = c.density;
      shell = c.shell;
      water = c.water;
    } };

    ghost use Rattle.computer.specs.Ledgers.{Admitted};

    ghost invariant = { λ c. Admitted P.ProductRule.meaning c.rule c.density c.shell (fitted_in c.probe) };
}
