// THE STEP: from what came of the last action to the next.
ghost use Rattle.std.specs.Prelude.{◌≡◌};
ghost use Rattle.judging.specs.Stages.{opened_by};
ghost use Rattle.judging.specs.Holds.{Begins, JudgesFrom};

use crate::reading::{samples_read, station_read};
use crate::state::{Held, JudgeStage, Judging, SAMPLES, STATION};
use exchange::action::Why;
use exchange::event::Event;
use samples::check::check;
use station::chunks::station_bytes;
use tally::no_bytes;

// Before the first action.
pub fn judging(twice: bool) -> Judging
    ensures { Begins twice result }
{
    Judging {
        stage: JudgeStage::OpenStation,
        held: Held {
            twice,
            file: station_bytes(),
            size: 0,
            check: check(),
            tally: no_bytes(),
        },
    }
}

// A program that reads the sample file once may be handed a pipe.
fn opened(held: Held, event: Event) -> Judging
    ensures { result ≡ opened_by held.twice event held }
{
    let unopened = JudgeStage::Stopped(Why::Unopened(SAMPLES));
    if held.twice {
        Judging::moved(held, event, JudgeStage::ToStart, unopened)
    } else {
        Judging::moved(held, event, JudgeStage::ReadSamples, unopened)
    }
}

// `buf` is lent to be read.
pub fn judge(judging: Judging, event: Event, buf: &[u8]) -> Judging
    ensures { JudgesFrom judging.stage judging.held event buf.now result }
{
    let held = judging.held;
    match judging.stage {
        JudgeStage::OpenStation => Judging::moved(
            held,
            event,
            JudgeStage::ReadStation,
            JudgeStage::Stopped(Why::Unopened(STATION)),
        ),
        JudgeStage::ReadStation => station_read(held, event, buf),
        JudgeStage::OpenSamples => opened(held, event),
        JudgeStage::ToStart => Judging::moved(
            held,
            event,
            JudgeStage::ReadSamples,
            JudgeStage::Stopped(Why::ReadOnce(SAMPLES)),
        ),
        JudgeStage::ReadSamples => samples_read(held, event, buf),
        JudgeStage::Judged | JudgeStage::Stopped(_) => Judging::stopped(held, Why::Broken),
    }
}
