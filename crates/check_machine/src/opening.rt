// From the arguments to both files' judgement.
ghost use Rattle.std.specs.Prelude.{ℕ, List};
ghost use Rattle.check_machine.specs.declared.state.Stage.{Stage};
ghost use Rattle.check_machine.specs.Holds.{StepsFrom};

use crate::answer::answer;
use crate::state::{Held, Machine, Stage};
use exchange::action::Why;
use exchange::event::Event;
use judging::judge::judge;
use judging::state::JudgeStage;

// The program's own name, STATION and SAMPLES.
const ARGUMENTS: usize = 3;

pub(crate) fn counted(held: Held, event: Event) -> Machine
    ensures { (buf out : List ℕ) → StepsFrom Stage.Counting held event buf out result out }
{
    match event {
        Event::Count(ARGUMENTS) => Machine {
            stage: Stage::Judging,
            held,
        },
        Event::Count(_) => Machine::stopped(held, Why::WrongCall),
        Event::Done | Event::Read(_) | Event::End | Event::Failed => Machine::stopped(
            held,
            Why::Broken,
        ),
    }
}

// One event of the reading; once both files are judged, the answer stands at the front of `out`.
pub(crate) fn judged(held: Held, event: Event, buf: &[u8], out: &mut [u8]) -> Machine
    ensures { StepsFrom Stage.Judging held event buf.now out.old result out.new }
{
    let judging = judge(held.judging, event, buf);
    let held = Held { judging, ..held };
    match judging.stage {
        JudgeStage::Judged => answer(held, out),
        JudgeStage::Stopped(why) => Machine::stopped(held, why),
        JudgeStage::OpenStation
        | JudgeStage::ReadStation
        | JudgeStage::OpenSamples
        | JudgeStage::ToStart
        | JudgeStage::ReadSamples => Machine {
            stage: Stage::Judging,
            held,
        },
    }
}
