// The program as the loop has it: its machine, and how far the reading has come for whoever watches a terminal.
ghost use Rattle.check_machine.specs.Stages.{asks_of};
ghost use Rattle.check_machine.specs.Holds.{Opens, Steps};

use check_machine::state::Machine;
use check_machine::{next, state};
use exchange::action::Action;
use exchange::event::Event;
use files::progress::say_read;
use files::source::Program;
use perform::turns::Decisions;
use std::io::{IsTerminal, Write};

pub(crate) struct Check;

impl Decisions for Check {
    type State = Machine;

    ghost opens = { Opens };

    ghost asks = { asks_of };

    ghost steps = { Steps };

    fn begin() -> Machine {
        next::begin()
    }

    fn asked(state: Machine) -> Action {
        state::asked(state)
    }

    fn next(state: Machine, event: Event, buf: &[u8], out: &mut [u8]) -> Machine {
        next::next(state, event, buf, out)
    }

    fn tell<W: Write + IsTerminal>(err: &mut W, told: u64, state: Machine) -> u64 {
        say_read(
            err,
            Program::Check,
            told,
            state.held.judging.held.tally.count,
        )
    }
}
