// The second pass over the sample file: its bytes are handed to the run, and held against those of the first.
ghost use Rattle.run_stages.specs.declared.state.Stage.{Stage};
ghost use Rattle.run_stages.specs.StageSteps.{StepsFrom};
ghost use Rattle.run_second_pass.specs.Passes.{EntersSecond, EndsSecond};

use crate::hand_over::hand_over;
use exchange::action::Why;
use exchange::event::Event;
use judging::state::SAMPLES;
use run_stages::state::{Held, Machine};
use tally::{same_tally, tallied};

// A file that is longer than before ends the reading, so that one that grows as fast as it is read does too.
fn second_chunk(held: Held, size: usize, chunk: &[u8], buf: &[u8], out: &mut [u8]) -> Machine
    ensures { EntersSecond held size chunk.now buf.now out.old result out.new }
{
    let second = tallied(held.second, chunk);
    if held.judging.held.tally.count < second.count {
        return Machine::stopped(held, Why::Changed(SAMPLES));
    }
    let held = Held {
        second,
        chunk: size,
        at: 0,
        ended: false,
        ..held
    };
    hand_over(held, buf, out)
}

// The end of the file. The run is told of it only where both passes saw the same, so that no set's line follows rows of other samples.
fn second_end(held: Held, buf: &[u8], out: &mut [u8]) -> Machine
    ensures { EndsSecond held buf.now out.old result out.new }
{
    if !same_tally(held.judging.held.tally, held.second) {
        return Machine::stopped(held, Why::Changed(SAMPLES));
    }
    let held = Held {
        chunk: 0,
        at: 0,
        ended: true,
        ..held
    };
    hand_over(held, buf, out)
}

pub fn second_read(held: Held, event: Event, buf: &[u8], out: &mut [u8]) -> Machine
    ensures { StepsFrom Stage.SecondPass held event buf.now out.old result out.new }
{
    match event {
        Event::Read(size) => match buf.get(..size) {
            Some(chunk) => second_chunk(held, size, chunk, buf, out),
            None => Machine::stopped(held, Why::Broken),
        },
        Event::End => second_end(held, buf, out),
        Event::Failed => Machine::stopped(held, Why::Unread(SAMPLES)),
        Event::Done | Event::Count(_) => Machine::stopped(held, Why::Broken),
    }
}
