//! Reading a tank. It changes nothing.
ghost use Rattle.std.specs.Prelude.{◌≡◌};
ghost use Rattle.computer.specs.Ledgers.{meanings, LedgerAdmitted};
ghost use Rattle.computer.specs.Readings.{ReadAnswer};

use super::super::reading::Reading;
use super::TankComputer;
use capacity::table::CapacityTable;
use gauge::gauge_trait::Gauge;
use measure::refusal::{Cause, Refusal};
use product::rule::ProductRule;
use working::liquid::Liquid;
use working::method::Method;
use working::observation::Observation;

impl<G: Gauge, T: CapacityTable, P: ProductRule> TankComputer<G, T, P> {
    /// A reading by method 1 or 2, or the first cause against it: the method, the gauge, the density, the height of the
    /// level, the water, the probe.
    pub fn read(&self, method: u32) -> Result<Reading, Refusal>
        ensures answer { ReadAnswer
            (meanings G.Gauge.meaning T.CapacityTable.meaning P.ProductRule.meaning)
            self.now method result }
        ensures admitted { LedgerAdmitted P.ProductRule.meaning self.now }
    {
        let water = self.water;
        let method = Method::try_from(method)?;
        let level = self.gauge.tell()?;
        let density = self.density.ok_or_else(|| Cause::DensityUnset.at(0))?;
        let at_level = self.survey.table.tenths(level)?;
        if water >= level {
            return Err(Cause::WaterAtLevel.at(i64::from(water)));
        }
        let counting = self.probe.counting(water, level);
        if counting.elements().is_empty() {
            return Err(Cause::NoElementCounts.at(i64::from(level)));
        }
        let at_water = self.survey.table.tenths(water)?;
        let coefficient = self.rule.coefficient(density)?;
        let liquid = Liquid {
            elements: counting.elements(),
            water,
            level,
        };
        let temperature = liquid.average();
        let observation = Observation {
            at_level,
            at_water,
            shell: self.shell,
            wall: temperature,
            product: temperature,
            coefficient,
            density,
            method,
        };
        let figures = observation.work_out();
        Ok(Reading {
            tank: self.tank,
            date: self.survey.date,
            method,
            density,
            level,
            water,
            temperature: temperature.ten_millionths,
            correction: figures.correction,
            gross: figures.gross,
            standard: figures.standard,
            mass: figures.mass,
            elements: counting.word(),
            count: counting.ones(),
        })
    }
}
