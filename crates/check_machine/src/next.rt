// THE STEP: from what came of the last action to the next.
ghost use Rattle.check_machine.specs.Holds.{Opens, Steps};

use crate::line_search::Sought;
use crate::lines::lines_read;
use crate::opening::{counted, judged};
use crate::state::{Held, Machine, Stage};
use exchange::action::{Why, Word};
use exchange::event::Event;
use judging::judge::judging;
use rules::limits::LEAST_ROW_BUFFER;

// Before the first action. The sample file is read from where it is opened, so that it may be a pipe.
pub fn begin() -> Machine
    ensures { Opens result }
{
    Machine {
        stage: Stage::Counting,
        held: Held {
            judging: judging(false),
            heading: Sought::Before(0),
            line: Sought::Before(0),
        },
    }
}

// `buf` is lent to be read into, and `out` to be written from.
pub fn next(machine: Machine, event: Event, buf: &[u8], out: &mut [u8]) -> Machine
    ensures { Steps machine event buf.now out.old result out.new }
{
    let held = machine.held;
    if buf.is_empty() || out.len() < LEAST_ROW_BUFFER {
        return Machine::stopped(held, Why::SmallBuffer);
    }
    let unwritten = Stage::Stop(Word::Nothing(Why::Unwritten));
    match machine.stage {
        Stage::Counting => counted(held, event),
        Stage::Judging => judged(held, event, buf, out),
        Stage::Answer(_, word) => Machine::moved(held, event, Stage::Stop(word), unwritten),
        Stage::LineAnswer(_, refusal) => Machine::moved(
            held,
            event,
            Stage::ToLines(refusal),
            unwritten,
        ),
        Stage::ToLines(refusal) => Machine::moved(
            held,
            event,
            Stage::Lines(refusal),
            Stage::Stop(Word::Refused(refusal)),
        ),
        Stage::Lines(refusal) => lines_read(held, event, refusal, buf),
        Stage::Stop(_) => Machine::stopped(held, Why::Broken),
    }
}
