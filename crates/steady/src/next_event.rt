// For how many seconds no set changes its mode, and what is left of the modes' counts on the way.
ghost use Rattle.std.specs.Prelude.{◌≡◌, ◌+◌, ◌-◌, ◌≤◌, ◌<◌};
ghost use Rattle.steady.specs.NextEvent.{longest, counted_down, waited, NoOwnEvent, NoEvent, unmoved, unmoved_all};

use rules::run::{Mode, SetState};
use rules::station::GenSet;
use set_moves::commands::{every_on, has_set};

// No more seconds than this are worked at a stretch.
const LONGEST: usize = 4_294_967_295;

// How many seconds a set On may run before it is due; one that is due stays so, and one without an interval never is.
fn due_after(interval: u32, clock: u32) -> usize
    ensures { (result ≤ longest) × (clock < interval → clock + result < interval) }
{
    if interval <= clock {
        return LONGEST;
    }
    let left = interval - clock;
    (left - 1) as usize
}

// How many seconds a set may go on before its mode ends or it is newly due.
fn until_own_event(genset: GenSet, state: SetState) -> usize
    ensures { NoOwnEvent genset state result }
{
    match state.mode {
        Mode::Off => LONGEST,
        Mode::On => due_after(genset.interval, state.clock),
        Mode::Warming(left) | Mode::Cooling(left) | Mode::Service(left) => left.saturating_sub(
            1,
        ) as usize,
    }
}

// How many seconds every set may.
pub(crate) fn until_event(sets: [GenSet; 8], states: [SetState; 8]) -> usize
    ensures { NoEvent sets states result }
{
    let mut least = LONGEST;
    for i in 0..8 {
        least = least.min(until_own_event(sets[i], states[i]));
    }
    least
}

fn counted_down(mode: Mode, seconds: u32) -> Mode
    ensures { result ≡ counted_down mode seconds }
{
    match mode {
        Mode::Off => Mode::Off,
        Mode::Warming(left) => Mode::Warming(left.saturating_sub(seconds)),
        Mode::On => Mode::On,
        Mode::Cooling(left) => Mode::Cooling(left.saturating_sub(seconds)),
        Mode::Service(left) => Mode::Service(left.saturating_sub(seconds)),
    }
}

// A set that is not On after some seconds.
pub(crate) fn waited(state: SetState, seconds: u32) -> SetState
    ensures { result ≡ waited state seconds }
{
    SetState {
        mode: counted_down(state.mode, seconds),
        ..state
    }
}

// Whether the command to a set leaves it as it is; `release` where every called set is On.
fn unmoved(mode: Mode, called: bool, release: bool) -> bool
    ensures { result ≡ unmoved mode called release }
{
    match mode {
        Mode::Off => !called,
        Mode::Warming(_) => called,
        Mode::On => called | !release,
        Mode::Cooling(_) | Mode::Service(_) => true,
    }
}

// Whether the commands leave every set as it is, where the mask's sets are called.
pub(crate) fn unmoved_all(states: [SetState; 8], mask: u32) -> bool
    ensures { result ≡ unmoved_all states mask }
{
    let release = every_on(states, mask);
    let mut ok = true;
    for i in 0..8 {
        ok = ok & unmoved(states[i].mode, has_set(mask, i), release);
    }
    ok
}
