// The program as the loop has it: its machine, and how far it has come for whoever watches a terminal.
ghost use Rattle.run_stages.specs.Stages.{asks_of};
ghost use Rattle.run_machine.specs.Steps.{Opens, Steps};

use exchange::action::Action;
use exchange::event::Event;
use files::progress::{say_read, say_worked};
use files::source::Program;
use perform::turns::Decisions;
use run_machine::state::Machine;
use run_machine::{next, state};
use run_phases::state::{Simulation, seconds_done, seconds_left};
use std::io::{IsTerminal, Write};

// Each further 10 million seconds are told.
const TOLD_EACH: u32 = 10_000_000;

// From here on what was told is of the seconds: no file has as many times 256 MB.
const OF_SECONDS: u64 = 1_000_000_000_000;

fn tell_worked<W: Write + IsTerminal>(err: &mut W, told: u64, simulation: Simulation) -> u64 {
    let done = seconds_done(simulation);
    let full = u64::from(done / TOLD_EACH);
    if 0 < full && told < OF_SECONDS + full {
        say_worked(err, Program::Run, done, seconds_left(simulation));
    }
    OF_SECONDS + full
}

pub(crate) struct Run;

impl Decisions for Run {
    type State = Machine;

    ghost opens = { Opens };

    ghost asks = { asks_of };

    ghost steps = { Steps };

    fn begin() -> Machine {
        next::begin()
    }

    fn asked(state: Machine) -> Action {
        state::asked(state)
    }

    fn next(state: Machine, event: Event, buf: &[u8], out: &mut [u8]) -> Machine {
        next::next(state, event, buf, out)
    }

    // Of the bytes in the first pass, and then of the seconds.
    fn tell<W: Write + IsTerminal>(err: &mut W, told: u64, state: Machine) -> u64 {
        if state.held.working {
            return tell_worked(err, told, state.held.simulation);
        }
        say_read(err, Program::Run, told, state.held.judging.held.tally.count)
    }
}
