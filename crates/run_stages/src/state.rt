// Where the program stands between two actions.
ghost use Rattle.std.specs.Prelude.{◌≡◌};
ghost use Rattle.exchange.specs.declared.action.Word.{Word};
ghost use Rattle.run_stages.specs.declared.state.Stage.{Stage};
ghost use Rattle.run_stages.specs.Stages.{asks};

use exchange::action::{Action, BUFFER_END, Why, Word};
use exchange::machine;
use judging::state::{Judging, SAMPLES, judge_asks};
use rules::answers::Refusal;
use run_phases::state::{Simulation, Wants};
use tally::Tally;

// The places of the arguments after both files: SECONDS, and the word that bin/run adds.
const SECONDS: usize = 3;

const TOLD: usize = 4;

// What was asked for last.
#[derive(Clone, Copy)]
pub enum Stage {
    Counting,
    // whether bin/run called
    Telling,
    // both files, by the stages of their own
    Judging,
    AskSeconds,
    ToSecondPass,
    SecondPass,
    // so many bytes of the run, and what it wants after them
    Write(usize, Wants),
    // so many bytes, all of this refusal's line
    Answer(usize, Refusal),
    Stop(Word),
}

#[derive(Clone, Copy)]
pub struct Held {
    pub judging: Judging,
    // of the second pass
    pub second: Tally,
    pub simulation: Simulation,
    // how many bytes of the buffer are the chunk that the run reads, and where it reads on
    pub chunk: usize,
    pub at: usize,
    // whether the run was told that the sample file has no byte after the chunk
    pub ended: bool,
    // whether bin/run called, which is told how the program ends
    pub told: bool,
    // whether the seconds are being worked
    pub working: bool,
}

pub type Machine = machine::Machine<Stage, Held>;

impl machine::Stage for Stage {
    ghost stop_at = { λ why. Stage.Stop (Word.Nothing why) };

    fn stop(why: Why) -> Stage {
        Stage::Stop(Word::Nothing(why))
    }
}

// What is to be done next.
pub fn asked(machine: Machine) -> Action
    ensures { result ≡ asks machine.stage machine.held.judging.stage }
{
    match machine.stage {
        Stage::Counting => Action::Count,
        Stage::Telling => Action::Argument(TOLD),
        Stage::Judging => judge_asks(machine.held.judging.stage),
        Stage::AskSeconds => Action::Argument(SECONDS),
        Stage::ToSecondPass => Action::Rewind(SAMPLES),
        Stage::SecondPass => Action::Read(SAMPLES, 0, BUFFER_END),
        Stage::Write(size, _) | Stage::Answer(size, _) => Action::Write(size),
        Stage::Stop(word) => Action::Stop(word),
    }
}
