// Where the program stands between two actions.
ghost use Rattle.std.specs.Prelude.{◌≡◌};
ghost use Rattle.exchange.specs.declared.action.Word.{Word};
ghost use Rattle.check_machine.specs.declared.state.Stage.{Stage};
ghost use Rattle.check_machine.specs.Stages.{asks};

use crate::line_search::Sought;
use exchange::action::{Action, BUFFER_END, Why, Word};
use exchange::machine;
use judging::state::{Judging, SAMPLES, judge_asks};
use rules::answers::Refusal;

// What was asked for last.
#[derive(Clone, Copy)]
pub enum Stage {
    // how many arguments there are
    Counting,
    // what the reading of both files asks for
    Judging,
    // so many bytes, the whole answer, and the word to stop with
    Answer(usize, Word),
    // the same where a line of the sample file is refused
    LineAnswer(usize, Refusal),
    // the sample file once more, for the message about that line
    ToLines(Refusal),
    Lines(Refusal),
    Stop(Word),
}

// What was read so far.
#[derive(Clone, Copy)]
pub struct Held {
    pub judging: Judging,
    // the heading line and the refused line, for the message
    pub heading: Sought,
    pub line: Sought,
}

pub type Machine = machine::Machine<Stage, Held>;

impl machine::Stage for Stage {
    ghost stop_at = { λ why. Stage.Stop (Word.Nothing why) };

    fn stop(why: Why) -> Stage {
        Stage::Stop(Word::Nothing(why))
    }
}

// What is to be done next.
pub fn asked(machine: Machine) -> Action
    ensures { result ≡ asks machine.stage machine.held.judging.stage }
{
    match machine.stage {
        Stage::Counting => Action::Count,
        Stage::Judging => judge_asks(machine.held.judging.stage),
        Stage::Answer(size, _) | Stage::LineAnswer(size, _) => Action::Write(size),
        Stage::ToLines(_) => Action::Rewind(SAMPLES),
        Stage::Lines(_) => Action::Read(SAMPLES, 0, BUFFER_END),
        Stage::Stop(word) => Action::Stop(word),
    }
}
