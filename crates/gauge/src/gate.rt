//! A gate, which doubts a level that jumps.
ghost use Rattle.std.specs.Prelude.{◌≡◌, true};
ghost use Rattle.gauge.specs.GateStates.{state_right};

pub mod state;
pub mod step;

use state::State;

/// Stands above any gauge.
#[derive(Drop)]
pub struct Gate<G> {
    below: G,
    allowance: u32,
    retries: u32,
    state: State,
    ghost right: { state_right state ≡ true },
}
