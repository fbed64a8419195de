// Where the reading of both files stands between two actions.
ghost use Rattle.std.specs.Prelude.{◌≡◌};
ghost use Rattle.judging.specs.declared.state.JudgeStage.{JudgeStage};
ghost use Rattle.judging.specs.Stages.{judge_asks};

use exchange::action::{Action, BUFFER_END, Why, Word};
use exchange::machine::{Machine, Stage};
use samples::check::SampleCheck;
use station::chunks::StationBytes;
use tally::Tally;

// The places of the files among the arguments: STATION SAMPLES come first in every program that reads both.
pub const STATION: usize = 1;

pub const SAMPLES: usize = 2;

// What was asked for last.
#[derive(Clone, Copy)]
pub enum JudgeStage {
    OpenStation,
    ReadStation,
    OpenSamples,
    // back to the first byte, which tells whether there can be a second pass
    ToStart,
    ReadSamples,
    // nothing more: both files are judged, or the station is refused
    Judged,
    // nothing more: a file could not be read
    Stopped(Why),
}

// What was read so far.
#[derive(Clone, Copy)]
pub struct Held {
    // whether the sample file is to be read a second time
    pub twice: bool,
    pub file: StationBytes,
    // how many bytes of the station file came, for whoever is told of its size
    pub size: usize,
    pub check: SampleCheck,
    // of the bytes of the sample file
    pub tally: Tally,
}

pub type Judging = Machine<JudgeStage, Held>;

impl Stage for JudgeStage {
    ghost stop_at = { JudgeStage.Stopped };

    fn stop(why: Why) -> JudgeStage {
        JudgeStage::Stopped(why)
    }
}

// What is to be done next.
pub fn judge_asks(stage: JudgeStage) -> Action
    ensures { result ≡ judge_asks stage }
{
    match stage {
        JudgeStage::OpenStation => Action::Open(STATION),
        JudgeStage::ReadStation => Action::Read(STATION, 0, BUFFER_END),
        JudgeStage::OpenSamples => Action::Open(SAMPLES),
        JudgeStage::ToStart => Action::Rewind(SAMPLES),
        JudgeStage::ReadSamples => Action::Read(SAMPLES, 0, BUFFER_END),
        JudgeStage::Judged => Action::Stop(Word::Nothing(Why::Broken)),
        JudgeStage::Stopped(why) => Action::Stop(Word::Nothing(why)),
    }
}
