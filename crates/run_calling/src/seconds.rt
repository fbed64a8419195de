// The seconds asked, and the run that they and both files come to.
ghost use Rattle.run_stages.specs.declared.state.Stage.{Stage};
ghost use Rattle.run_stages.specs.StageSteps.{StepsFrom};
ghost use Rattle.run_calling.specs.Calls.{Answers, Begun};

use exchange::action::Why;
use exchange::event::Event;
use rows::run_lines::put_refused;
use rules::answers::Refusal;
use run_phases::begin::begin;
use run_phases::state::{Phase, phase_of};
use run_stages::state::{Held, Machine, Stage};
use samples::check::finish;

// A refusal is all that is printed, and needs no second pass.
fn refused(held: Held, refusal: Refusal, out: &mut [u8]) -> Machine
    ensures { Answers held refusal out.old result out.new }
{
    match put_refused(refusal, out) {
        Ok(size) => Machine {
            stage: Stage::Answer(size, refusal),
            held,
        },
        Err(_) => Machine::stopped(held, Why::SmallBuffer),
    }
}

// A run that begins needs the samples once more.
fn begun(held: Held, asked: &[u8], out: &mut [u8]) -> Machine
    ensures { Begun held asked.now out.old result out.new }
{
    let read = held.judging.held;
    let simulation = begin(read.file, finish(read.check), asked);
    match phase_of(simulation) {
        Phase::Refusal(refusal) => refused(held, refusal, out),
        Phase::Heading => Machine {
            stage: Stage::ToSecondPass,
            held: Held {
                simulation,
                working: true,
                ..held
            },
        },
        Phase::Seconds | Phase::SetHeading | Phase::SetLine(_) | Phase::Over | Phase::Broken =>
            Machine::stopped(held, Why::Broken),
    }
}

pub fn seconds_asked(held: Held, event: Event, buf: &[u8], out: &mut [u8]) -> Machine
    ensures { StepsFrom Stage.AskSeconds held event buf.now out.old result out.new }
{
    match event {
        Event::Read(size) => match buf.get(..size) {
            Some(asked) => begun(held, asked, out),
            None => Machine::stopped(held, Why::Broken),
        },
        Event::Failed => Machine::stopped(held, Why::WrongCall),
        Event::Done | Event::Count(_) | Event::End => Machine::stopped(held, Why::Broken),
    }
}
