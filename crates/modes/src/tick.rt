// Step 1: the sets' modes tick.
ghost use Rattle.std.specs.Prelude.{◌≡◌};
ghost use Rattle.rules.specs.Modes.{with_mode, tick, ticked};

use crate::mode::is_due;
use rules::run::{Mode, SetState};
use rules::station::GenSet;
use std::array::from_fn;

fn with_mode(state: SetState, mode: Mode, clock: u32) -> SetState
    ensures { result ≡ with_mode state mode clock }
{
    SetState {
        mode,
        clock,
        ..state
    }
}

fn tick(genset: GenSet, state: SetState) -> SetState
    ensures { result ≡ tick genset state }
{
    match state.mode {
        Mode::Off => state,
        Mode::Warming(left) => {
            if left <= 1 {
                with_mode(state, Mode::On, state.clock)
            } else {
                with_mode(state, Mode::Warming(left - 1), state.clock)
            }
        }
        Mode::On => state,
        Mode::Cooling(left) => {
            if left <= 1 {
                if is_due(genset, state) {
                    with_mode(state, Mode::Service(genset.service), state.clock)
                } else {
                    with_mode(state, Mode::Off, state.clock)
                }
            } else {
                with_mode(state, Mode::Cooling(left - 1), state.clock)
            }
        }
        Mode::Service(left) => {
            if left <= 1 {
                with_mode(state, Mode::Off, 0)
            } else {
                with_mode(state, Mode::Service(left - 1), state.clock)
            }
        }
    }
}

pub fn tick_all(sets: [GenSet; 8], states: [SetState; 8]) -> [SetState; 8]
    ensures { result ≡ ticked sets states }
{
    from_fn(|i| tick(sets[i], states[i]))
}
