//! The working: from an observation to its figures.
ghost use Rattle.working.specs.Workings.{WorkedOut};

use super::super::correction::{correction, expansion, exponent};
use super::super::figures::Figures;
use super::super::mass::mass;
use super::super::volume::scaled;
use super::super::wall::wall_factor;
use super::Observation;

impl Observation {
    /// The water is taken off before the wall factor, and the wall has its own temperature.
    pub fn work_out(&self) -> Figures
        ensures { WorkedOut self.now result }
    {
        let wall_factor = wall_factor(self.shell, self.wall.offset());
        let gross = scaled(self.at_level - self.at_water, wall_factor);
        let exponent = exponent(expansion(self.coefficient, self.product.offset()));
        let correction = correction(exponent);
        let standard = scaled(gross, correction);
        Figures {
            wall_factor,
            gross,
            correction,
            standard,
            mass: mass(self.method, standard, self.density),
        }
    }
}
