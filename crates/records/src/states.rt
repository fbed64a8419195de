// 24, the sets: their modes and counts, and nothing beyond the existing sets.
ghost use Rattle.std.specs.Prelude.{◌≡◌, ◌≤◌};
ghost use Rattle.rules.specs.RunRecord.{most_seconds, mode_possible, counts_possible, state_unused, state_possible, states_possible};

use modes::mode::is_off;
use rules::limits::MOST_FUEL_A_SECOND;
use rules::run::{Mode, SetState};
use rules::station::GenSet;

fn mode_possible(genset: GenSet, mode: Mode) -> bool
    ensures { result ≡ mode_possible genset mode }
{
    match mode {
        Mode::Off => true,
        Mode::Warming(left) => (1 <= left) & (left <= genset.warmup),
        Mode::On => true,
        Mode::Cooling(left) => (1 <= left) & (left <= genset.cooldown),
        Mode::Service(left) => ((1 <= left) & (left <= genset.service)) & (0 < genset.interval),
    }
}

fn counts_possible(genset: GenSet, state: SetState, done: u32) -> bool
    requires { done ≤ most_seconds }
    ensures { result ≡ counts_possible genset state done }
{
    let seconds = done as u64;
    let rated = (genset.rating as u64) * seconds;
    (state.run <= done)
        & (state.clock <= done)
        & (state.starts <= done)
        & (state.stops <= done)
        & (state.energy <= rated)
        & (state.fuel <= MOST_FUEL_A_SECOND * seconds)
}

// "all zero or Off beyond the existing sets"
fn state_unused(state: SetState) -> bool
    ensures { result ≡ state_unused state }
{
    is_off(state.mode)
        & (state.run == 0)
        & (state.clock == 0)
        & (state.starts == 0)
        & (state.stops == 0)
        & (state.energy == 0)
        & (state.fuel == 0)
}

fn state_possible(exists: bool, genset: GenSet, state: SetState, done: u32) -> bool
    requires { done ≤ most_seconds }
    ensures { result ≡ state_possible exists genset state done }
{
    if !exists {
        return state_unused(state);
    }
    mode_possible(genset, state.mode) & counts_possible(genset, state, done)
}

pub(crate) fn states_possible(
    setcount: usize,
    sets: [GenSet; 8],
    states: [SetState; 8],
    done: u32,
) -> bool
    requires { done ≤ most_seconds }
    ensures { result ≡ states_possible setcount sets states done }
{
    (0..8).all(|i| state_possible(i < setcount, sets[i], states[i], done))
}
