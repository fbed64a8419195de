// The answer, at the front of the output buffer: one line, whatever the files are.
ghost use Rattle.check_machine.specs.Holds.{Accepts, Refuses, RefusesLine, AnswersSamples, Answers};

use crate::line_search::Sought;
use crate::state::{Held, Machine, Stage};
use exchange::action::{Why, Word};
use rows::run_lines::{put_accepted, put_refused};
use rules::answers::Refusal;
use samples::check::finish;
use station::chunks::station_of;
use words::refusals::NumberAndPlace;

fn accept(held: Held, out: &mut [u8]) -> Machine
    ensures { Accepts out.old result out.new }
{
    match put_accepted(out) {
        Ok(size) => Machine {
            stage: Stage::Answer(size, Word::Complete),
            held,
        },
        Err(_) => Machine::stopped(held, Why::SmallBuffer),
    }
}

fn refuse(held: Held, refusal: Refusal, out: &mut [u8]) -> Machine
    ensures { Refuses refusal out.old result out.new }
{
    match put_refused(refusal, out) {
        Ok(size) => Machine {
            stage: Stage::Answer(size, Word::Refused(refusal)),
            held,
        },
        Err(_) => Machine::stopped(held, Why::SmallBuffer),
    }
}

// Of a refused line the message shows what stands there, so that the file is read once more for it.
fn refuse_line(held: Held, refusal: Refusal, line: u64, out: &mut [u8]) -> Machine
    ensures { RefusesLine refusal out.old result out.new }
{
    if line == 0 {
        return refuse(held, refusal, out);
    }
    let held = Held {
        line: Sought::Before(line - 1),
        ..held
    };
    match put_refused(refusal, out) {
        Ok(size) => Machine {
            stage: Stage::LineAnswer(size, refusal),
            held,
        },
        Err(_) => Machine::stopped(held, Why::SmallBuffer),
    }
}

// The station is in order.
fn answer_samples(held: Held, out: &mut [u8]) -> Machine
    ensures { AnswersSamples held out.old result out.new }
{
    match finish(held.judging.held.check) {
        Ok(_) => accept(held, out),
        Err(refusal) => refuse_line(held, refusal, NumberAndPlace::from(refusal).place, out),
    }
}

// Both files are judged, or the station is refused.
pub(crate) fn answer(held: Held, out: &mut [u8]) -> Machine
    ensures { Answers held out.old result out.new }
{
    match station_of(held.judging.held.file) {
        Ok(_) => answer_samples(held, out),
        Err(refusal) => refuse(held, refusal, out),
    }
}
