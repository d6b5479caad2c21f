//! What a gate says, and the step that it takes after each sample.
ghost use Rattle.std.specs.Prelude.{◌≡◌};
ghost use Rattle.gauge.specs.GateStates.{state_after};
ghost use Rattle.gauge.specs.Gates.{counted_allowance, counted_retries, gate_meaning};
ghost use Rattle.gauge.specs.declared.gate.state.State.TheVariants.{Empty};

use super::super::gauge_trait::Gauge;
use super::super::sample::Sample;
use super::Gate;
use super::state::State;
use measure::refusal::{Cause, Refusal};

const LARGEST_ALLOWANCE: u32 = 9_990;

const MOST_RETRIES: u32 = 999;

impl<G> Gate<G> {
    /// An empty gate. An allowance over 9,990 counts as 9,990, a retry number over 999 as 999.
    pub fn new(below: G, allowance: u32, retries: u32) -> Gate<G>
        ensures below { result.below ≡ below }
        ensures allowance { result.allowance ≡ counted_allowance allowance }
        ensures retries { result.retries ≡ counted_retries retries }
        ensures state { result.state ≡ Empty }
    {
        Gate {
            below,
            allowance: allowance.min(LARGEST_ALLOWANCE),
            retries: retries.min(MOST_RETRIES),
            state: State::Empty,
        }
    }
}

impl State {
    /// The state after a sample, from what the gauge below says then.
    fn step(&mut self, allowance: u32, retries: u32, below: Result<u32, Refusal>)
        ensures { self.new ≡ state_after allowance retries self.old below }
    {
        match (*self, below) {
            (_, Err(_)) => {}
            (State::Empty, Ok(level)) => *self = State::Settled(level),
            (State::Settled(held) | State::Suspect { held, .. } | State::Lost(held), Ok(level))
                if level.abs_diff(held) <= allowance => {
                *self = State::Settled(level);
            }
            (State::Settled(held), Ok(_)) if retries >= 1 => {
                *self = State::Suspect { held, count: 1 };
            }
            (State::Suspect { held, count }, Ok(_)) if count < retries => {
                *self = State::Suspect {
                    held,
                    count: count + 1,
                };
            }
            (State::Settled(_) | State::Suspect { .. } | State::Lost(_), Ok(level)) => {
                *self = State::Lost(level);
            }
        }
    }
}

impl<G: Gauge> Gauge for Gate<G> {
    ghost meaning = { gate_meaning G.Gauge.meaning };

    fn tell(&self) -> Result<u32, Refusal> {
        self.below.tell()?;
        match self.state {
            State::Empty => Err(Cause::NothingHeard.at(0)),
            State::Settled(held) | State::Suspect { held, .. } => Ok(held),
            State::Lost(held) => Err(Cause::GateLost.at(i64::from(held))),
        }
    }

    fn take(&mut self, sample: Sample) {
        if sample.first_wrong().is_some() {
            return;
        }
        self.below.take(sample);
        let below = self.below.tell();
        self.state.step(self.allowance, self.retries, below);
    }
}
