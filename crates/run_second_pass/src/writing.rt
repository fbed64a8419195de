// What follows once bytes were written.
ghost use Rattle.run_stages.specs.declared.state.Stage.{Stage};
ghost use Rattle.run_stages.specs.StageSteps.{StepsFrom};
ghost use Rattle.run_second_pass.specs.Passes.{GoesOn};

use crate::hand_over::{finished, hand_over};
use exchange::action::Why;
use exchange::event::Event;
use run_phases::state::Wants;
use run_stages::state::{Held, Machine, Stage};

// What the run wants after the bytes that were written.
fn write_done(held: Held, wants: Wants, buf: &[u8], out: &mut [u8]) -> Machine
    ensures { GoesOn held wants buf.now out.old result out.new }
{
    match wants {
        Wants::Further => Machine::stopped(held, Why::Broken),
        Wants::Input => Machine {
            stage: Stage::SecondPass,
            held,
        },
        Wants::Room => hand_over(held, buf, out),
        Wants::Nothing => finished(held),
    }
}

pub fn written(
    held: Held,
    size: usize,
    wants: Wants,
    event: Event,
    buf: &[u8],
    out: &mut [u8],
) -> Machine
    ensures { StepsFrom (Stage.Write size wants) held event buf.now out.old result out.new }
{
    match event {
        Event::Done => write_done(held, wants, buf, out),
        Event::Failed => Machine::stopped(held, Why::Unwritten),
        Event::Count(_) | Event::Read(_) | Event::End => Machine::stopped(held, Why::Broken),
    }
}
