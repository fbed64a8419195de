// A chunk handed to the run, and the bytes that it comes to handed over to be written.
ghost use Rattle.std.specs.Prelude.{◌≡◌};
ghost use Rattle.run_second_pass.specs.Passes.{is_over, HandsOver, Finishes};

use exchange::action::{Why, Word};
use run_phases::state::{Phase, phase_of};
use run_stages::state::{Held, Machine, Stage};
use simulation::advance::advance;

// One call of the run with the chunk that stands at the start of the buffer.
pub(crate) fn hand_over(held: Held, buf: &[u8], out: &mut [u8]) -> Machine
    ensures { HandsOver held buf.now out.old result out.new }
{
    let Some(chunk) = buf.get(..held.chunk) else {
        return Machine::stopped(held, Why::Broken);
    };
    let turn = advance(held.simulation, chunk, held.at, held.ended, out);
    Machine {
        stage: Stage::Write(turn.written, turn.wants),
        held: Held {
            simulation: turn.simulation,
            at: turn.next,
            ..held
        },
    }
}

fn is_over(phase: Phase) -> bool
    ensures { result ≡ is_over phase }
{
    matches!(phase, Phase::Over)
}

// The run wants no further call: all is written, or it broke off.
pub(crate) fn finished(held: Held) -> Machine
    ensures { Finishes held result }
{
    if !is_over(phase_of(held.simulation)) {
        return Machine::stopped(held, Why::Broken);
    }
    if held.ended {
        return Machine {
            stage: Stage::Stop(Word::Complete),
            held,
        };
    }
    Machine::stopped(held, Why::Broken)
}
