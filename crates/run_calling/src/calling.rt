// How the program was called, and the reading of both files that follows.
ghost use Rattle.run_stages.specs.declared.state.Stage.{Stage};
ghost use Rattle.run_stages.specs.StageSteps.{StepsFrom};
ghost use Rattle.run_calling.specs.Calls.{CallsWith, Tells, Names};

use exchange::action::Why;
use exchange::event::Event;
use judging::judge::judge;
use judging::state::JudgeStage;
use run_stages::state::{Held, Machine, Stage};

// The program's own name, STATION, SAMPLES and SECONDS; bin/run adds a word.
const PLAIN: usize = 4;

const WITH_WORD: usize = 5;

fn called(held: Held, count: usize) -> Machine
    ensures { CallsWith held count result }
{
    match count {
        PLAIN => Machine {
            stage: Stage::Judging,
            held,
        },
        WITH_WORD => Machine {
            stage: Stage::Telling,
            held,
        },
        _ => Machine::stopped(held, Why::WrongCall),
    }
}

pub fn counted(held: Held, event: Event, buf: &[u8], out: &mut [u8]) -> Machine
    ensures { StepsFrom Stage.Counting held event buf.now out.old result out.new }
{
    match event {
        Event::Count(count) => called(held, count),
        Event::Done | Event::Read(_) | Event::End | Event::Failed => {
            Machine::stopped(held, Why::Broken)
        }
    }
}

// Whether the word is `-3`: the descriptor that bin/run reads the end from.
fn is_told(word: &[u8], size: usize) -> bool
    ensures { Tells word.now size result }
{
    size == 2 && word.starts_with(b"-3")
}

fn named(held: Held, told: bool) -> Machine
    ensures { Names held told result }
{
    if !told {
        return Machine::stopped(held, Why::WrongCall);
    }
    Machine {
        stage: Stage::Judging,
        held: Held { told: true, ..held },
    }
}

pub fn telling(held: Held, event: Event, buf: &[u8], out: &mut [u8]) -> Machine
    ensures { StepsFrom Stage.Telling held event buf.now out.old result out.new }
{
    match event {
        Event::Read(size) => named(held, is_told(buf, size)),
        Event::Failed => Machine::stopped(held, Why::WrongCall),
        Event::Done | Event::Count(_) | Event::End => Machine::stopped(held, Why::Broken),
    }
}

// Both files are judged, or one could not be read.
pub fn judged(held: Held, event: Event, buf: &[u8], out: &mut [u8]) -> Machine
    ensures { StepsFrom Stage.Judging held event buf.now out.old result out.new }
{
    let judging = judge(held.judging, event, buf);
    let held = Held { judging, ..held };
    match judging.stage {
        JudgeStage::Judged => Machine {
            stage: Stage::AskSeconds,
            held,
        },
        JudgeStage::Stopped(why) => Machine::stopped(held, why),
        JudgeStage::OpenStation
        | JudgeStage::ReadStation
        | JudgeStage::OpenSamples
        | JudgeStage::ToStart
        | JudgeStage::ReadSamples => Machine {
            stage: Stage::Judging,
            held,
        },
    }
}
