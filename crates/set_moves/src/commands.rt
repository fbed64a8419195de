// Step 11: the commands to each set.
ghost use Rattle.std.specs.Prelude.{◌≡◌, ◌<◌};
ghost use Rattle.rules.specs.Numbers.{has};
ghost use Rattle.rules.specs.Commands.{started, stopped, command, every_on};
ghost use Rattle.set_moves.specs.InType.{switched_in, commanded_all_in};

use modes::mode::is_on;
use rules::run::{Mode, SetState};
use rules::station::GenSet;
use std::array::from_fn;
use words::masks::places_of;

// "go Warming, one start"
fn start_set(genset: GenSet, state: SetState) -> SetState
    ensures { result ≡ switched_in (started genset state) }
{
    SetState {
        mode: Mode::Warming(genset.warmup),
        starts: state.starts.wrapping_add(1),
        ..state
    }
}

// "go Off, one stop", "go Cooling, one stop"
fn stop_set(state: SetState, mode: Mode) -> SetState
    ensures { result ≡ switched_in (stopped state mode) }
{
    SetState {
        mode,
        stops: state.stops.wrapping_add(1),
        ..state
    }
}

// The command to one set; `release` where every called set is On, so that the others may go.
fn command(genset: GenSet, state: SetState, called: bool, release: bool) -> SetState
    ensures { result ≡ switched_in (command genset state called release) }
{
    match state.mode {
        Mode::Off => {
            if called {
                start_set(genset, state)
            } else {
                state
            }
        }
        Mode::Warming(_) => {
            if called {
                state
            } else {
                stop_set(state, Mode::Off)
            }
        }
        Mode::On => {
            if called {
                state
            } else {
                if release {
                    stop_set(state, Mode::Cooling(genset.cooldown))
                } else {
                    state
                }
            }
        }
        Mode::Cooling(_) => state,
        Mode::Service(_) => state,
    }
}

// Whether the mask has the set at a place.
pub fn has_set(mask: u32, place: usize) -> bool
    ensures { result ≡ has mask place }
{
    // a mask has no bit so high, and no shift reaches it
    if 32 <= place {
        return false;
    }
    (mask >> place) % 2 == 1
}

// "every called set is On"
pub fn every_on(states: [SetState; 8], mask: u32) -> bool
    ensures { result ≡ every_on states mask }
{
    for place in places_of(mask) {
        if !is_on(states[place].mode) {
            return false;
        }
    }
    true
}

// The commands to every set, where the mask's sets are called.
pub fn command_all(sets: [GenSet; 8], states: [SetState; 8], mask: u32) -> [SetState; 8]
    ensures { result ≡ commanded_all_in sets states mask }
{
    let release = every_on(states, mask);
    from_fn(|i| command(sets[i], states[i], has_set(mask, i), release))
}
