// The refused line and the heading line, from a second pass over the sample file. The answer is written already: whatever comes of the
// search, the program stops with the refusal.
ghost use Rattle.std.specs.Prelude.{ℕ, List, ◌≡◌};
ghost use Rattle.exchange.specs.declared.action.Word.{Word};
ghost use Rattle.check_machine.specs.declared.state.Stage.{Stage};
ghost use Rattle.check_machine.specs.Holds.{StepsFrom, Searches};

use crate::line_search::Sought;
use crate::state::{Held, Machine, Stage};
use exchange::action::{Why, Word};
use exchange::event::Event;
use rules::answers::Refusal;

// The heading line is found no later than the refused one.
fn lines_in(held: Held, refusal: Refusal, chunk: &[u8]) -> Machine
    ensures { Searches refusal result }
{
    let held = Held {
        heading: held.heading.continued(chunk),
        line: held.line.continued(chunk),
        ..held
    };
    if let Sought::Found(_) = held.line {
        return Machine {
            stage: Stage::Stop(Word::Refused(refusal)),
            held,
        };
    }
    Machine {
        stage: Stage::Lines(refusal),
        held,
    }
}

fn lines_end(held: Held, refusal: Refusal) -> Machine
    ensures { result.stage ≡ Stage.Stop (Word.Refused refusal) }
{
    Machine {
        stage: Stage::Stop(Word::Refused(refusal)),
        held: Held {
            heading: held.heading.ended(),
            line: held.line.ended(),
            ..held
        },
    }
}

pub(crate) fn lines_read(held: Held, event: Event, refusal: Refusal, buf: &[u8]) -> Machine
    ensures { (out : List ℕ) → StepsFrom (Stage.Lines refusal) held event buf.now out result out }
{
    match event {
        Event::Read(n) => match buf.get(..n) {
            Some(chunk) => lines_in(held, refusal, chunk),
            None => Machine::stopped(held, Why::Broken),
        },
        Event::End => lines_end(held, refusal),
        Event::Failed => Machine {
            stage: Stage::Stop(Word::Refused(refusal)),
            held,
        },
        Event::Done | Event::Count(_) => Machine::stopped(held, Why::Broken),
    }
}
