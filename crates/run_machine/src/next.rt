// THE STEP: from what came of the last action to the next.
ghost use Rattle.run_stages.specs.StageSteps.{StepsFrom};
ghost use Rattle.run_machine.specs.Steps.{Opens, Steps};

use exchange::action::{Why, Word};
use exchange::event::Event;
use judging::judge::judging;
use judging::state::SAMPLES;
use rules::limits::LEAST_ROW_BUFFER;
use run_calling::calling::{counted, judged, telling};
use run_calling::seconds::seconds_asked;
use run_second_pass::second_pass::second_read;
use run_second_pass::writing::written;
use run_stages::state::{Held, Machine, Stage};
use samples::check::{check, finish};
use station::chunks::station_bytes;
use tally::no_bytes;

// "Seconds asked are 1 to 9 digits": one more byte tells that there are too many.
const LEAST_READ: usize = 10;

// The program before its first action. The run is none yet: that of no bytes.
pub fn begin() -> Machine
    ensures { Opens result }
{
    Machine {
        stage: Stage::Counting,
        held: Held {
            judging: judging(true),
            second: no_bytes(),
            simulation: run_phases::begin::begin(station_bytes(), finish(check()), b""),
            chunk: 0,
            at: 0,
            ended: false,
            told: false,
            working: false,
        },
    }
}

// A step of a program whose buffers are large enough.
fn step(machine: Machine, event: Event, buf: &[u8], out: &mut [u8]) -> Machine
    ensures { StepsFrom machine.stage machine.held event buf.now out.old result out.new }
{
    let held = machine.held;
    match machine.stage {
        Stage::Counting => counted(held, event, buf, out),
        Stage::Telling => telling(held, event, buf, out),
        Stage::Judging => judged(held, event, buf, out),
        Stage::AskSeconds => seconds_asked(held, event, buf, out),
        Stage::ToSecondPass => Machine::moved(
            held,
            event,
            Stage::SecondPass,
            Stage::Stop(Word::Nothing(Why::ReadOnce(SAMPLES))),
        ),
        Stage::SecondPass => second_read(held, event, buf, out),
        Stage::Write(size, wants) => written(held, size, wants, event, buf, out),
        Stage::Answer(_, refusal) => Machine::moved(
            held,
            event,
            Stage::Stop(Word::Refused(refusal)),
            Stage::Stop(Word::Nothing(Why::Unwritten)),
        ),
        Stage::Stop(_) => Machine::stopped(held, Why::Broken),
    }
}

// `buf` is lent to be read into and `out` to be written from. One that has no room for SECONDS or for a row stops the program.
pub fn next(machine: Machine, event: Event, buf: &[u8], out: &mut [u8]) -> Machine
    ensures { Steps machine event buf.now out.old result out.new }
{
    if buf.len() < LEAST_READ || out.len() < LEAST_ROW_BUFFER {
        return Machine::stopped(machine.held, Why::SmallBuffer);
    }
    step(machine, event, buf, out)
}
