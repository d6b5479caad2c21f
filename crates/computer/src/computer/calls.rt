//! Commissioning, and the calls that change a tank computer. A refused call changes nothing.
ghost use Rattle.std.specs.Prelude.{◌≡◌};
ghost use Rattle.probe.specs.Probes.{done_unless};
ghost use Rattle.computer.specs.Ledgers.{meanings, commissioned, LedgerAdmitted};
ghost use Rattle.computer.specs.Calls.{adopt_refusal, after_adopt, sample_refusal, after_sample, fit_refused, after_fit, element_refused, after_element, density_refused, after_density, shell_refused, after_shell, water_refused, after_water};

use super::super::dated_table::DatedTable;
use super::TankComputer;
use capacity::table::CapacityTable;
use gauge::gauge_trait::Gauge;
use gauge::sample::Sample;
use measure::limits::HIGHEST_LEVEL;
use measure::refusal::{Cause, Refusal};
use probe::probe::Probe;
use product::rule::ProductRule;

const LARGEST_SHELL: u32 = 300;

impl<G: Gauge, T: CapacityTable, P: ProductRule> TankComputer<G, T, P> {
    /// Water and shell coefficient are 0, the density is unset, no element is fitted.
    pub fn commission(tank: u32, gauge: G, survey: DatedTable<T>, rule: P) -> TankComputer<G, T, P>
        ensures ledger { result ≡ commissioned tank gauge survey.table survey.date rule }
        ensures admitted { LedgerAdmitted P.ProductRule.meaning result }
    {
        TankComputer {
            tank,
            gauge,
            survey,
            rule,
            probe: Probe::new(),
            density: None,
            shell: 0,
            water: 0,
        }
    }

    /// Takes a later survey's table into force. The offered table is used up either way.
    pub fn adopt(&mut self, survey: DatedTable<T>) -> Result<(), Refusal>
    where
        T: Drop,
        ensures answer { result ≡ done_unless (adopt_refusal
            (meanings G.Gauge.meaning T.CapacityTable.meaning P.ProductRule.meaning)
            self.old survey.table survey.date) }
        ensures after { self.new ≡ after_adopt
            (meanings G.Gauge.meaning T.CapacityTable.meaning P.ProductRule.meaning)
            self.old survey.table survey.date }
        ensures admitted { LedgerAdmitted P.ProductRule.meaning self.new }
    {
        if survey.date <= self.survey.date {
            return Err(Cause::DateNotLater.at(i64::from(survey.date)));
        }
        if survey.table.reach() == 0 {
            return Err(Cause::NothingCovered.at(i64::from(survey.date)));
        }
        self.survey = survey;
        Ok(())
    }

    /// Hands a sample to the gauge.
    pub fn sample(&mut self, sample: Sample) -> Result<(), Refusal>
        ensures answer { result ≡ done_unless (sample_refusal sample) }
        ensures after { self.new ≡ after_sample
            (meanings G.Gauge.meaning T.CapacityTable.meaning P.ProductRule.meaning)
            self.old sample }
        ensures admitted { LedgerAdmitted P.ProductRule.meaning self.new }
    {
        // a refusal, too, tells what the computer keeps
        let _held = &self.gauge;
        if let Some(number) = sample.first_wrong() {
            return Err(Cause::SampleOutside.at(i64::from(number)));
        }
        self.gauge.take(sample);
        Ok(())
    }

    /// Fits a probe element above the others.
    pub fn fit(&mut self, height: u32) -> Result<(), Refusal>
        ensures answer { result ≡ done_unless (fit_refused self.old height) }
        ensures after { self.new ≡ after_fit self.old height }
        ensures admitted { LedgerAdmitted P.ProductRule.meaning self.new }
    {
        self.probe.fit(height)
    }

    /// Gives probe element `number`, counted from 1, a temperature in hundredths of a °C.
    pub fn element(&mut self, number: u32, hundredths: i32) -> Result<(), Refusal>
        ensures answer { result ≡ done_unless (element_refused self.old number) }
        ensures after { self.new ≡ after_element self.old number hundredths }
        ensures admitted { LedgerAdmitted P.ProductRule.meaning self.new }
    {
        self.probe.hear(number, hundredths)
    }

    /// Sets the density, in half kilograms per cubic metre at 15 °C, where the product rule covers it.
    pub fn density(&mut self, density: u32) -> Result<(), Refusal>
        ensures answer { result ≡ done_unless (density_refused
            (meanings G.Gauge.meaning T.CapacityTable.meaning P.ProductRule.meaning)
            self.old density) }
        ensures after { self.new ≡ after_density
            (meanings G.Gauge.meaning T.CapacityTable.meaning P.ProductRule.meaning)
            self.old density }
        ensures admitted { LedgerAdmitted P.ProductRule.meaning self.new }
    {
        let _coefficient = self.rule.coefficient(density)?;
        self.density = Some(density);
        Ok(())
    }

    /// Sets the shell coefficient, in units of 10^-7 per °C.
    pub fn shell(&mut self, shell: u32) -> Result<(), Refusal>
        ensures answer { result ≡ done_unless (shell_refused shell) }
        ensures after { self.new ≡ after_shell self.old shell }
        ensures admitted { LedgerAdmitted P.ProductRule.meaning self.new }
    {
        // a refusal, too, tells what the computer keeps
        let _held = &self.shell;
        if shell > LARGEST_SHELL {
            return Err(Cause::ShellLimit.at(i64::from(shell)));
        }
        self.shell = shell;
        Ok(())
    }

    /// Sets the height of the water below the product.
    pub fn water(&mut self, water: u32) -> Result<(), Refusal>
        ensures answer { result ≡ done_unless (water_refused water) }
        ensures after { self.new ≡ after_water self.old water }
        ensures admitted { LedgerAdmitted P.ProductRule.meaning self.new }
    {
        // a refusal, too, tells what the computer keeps
        let _held = &self.water;
        if water > HIGHEST_LEVEL {
            return Err(Cause::WaterLimit.at(i64::from(water)));
        }
        self.water = water;
        Ok(())
    }
}
