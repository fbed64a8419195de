// The station file and then the sample file, chunk by chunk.
ghost use Rattle.judging.specs.Holds.{EndsStation, EntersStation, EntersSamples, JudgesFrom};
ghost use Rattle.judging.specs.declared.state.JudgeStage.{JudgeStage};

use crate::state::{Held, JudgeStage, Judging, SAMPLES, STATION};
use exchange::action::Why;
use exchange::event::Event;
use samples::check::{feed, is_refused};
use station::chunks::{is_station_refused, is_too_long, more_station};
use tally::tallied;

// A file that is too long is read up to here and no further, so that its size can be told where it is near, and a device without end ends.
const MOST_STATION: usize = 4096;

// Where the station is refused, no sample need be read.
fn station_judged(held: Held) -> Judging
    ensures { EndsStation held result }
{
    let stage = if is_station_refused(held.file) {
        JudgeStage::Judged
    } else {
        JudgeStage::OpenSamples
    };
    Judging { stage, held }
}

// With the bytes that came, as far as they count.
fn more_bytes(size: usize, more: usize) -> usize {
    if MOST_STATION <= size {
        return size;
    }
    if MOST_STATION <= more {
        return MOST_STATION;
    }
    size + more
}

fn station_chunk(held: Held, chunk: &[u8]) -> Judging
    ensures { EntersStation held chunk.now result }
{
    let file = more_station(held.file, chunk);
    let size = more_bytes(held.size, chunk.len());
    let held = Held { file, size, ..held };
    if size >= MOST_STATION && is_too_long(file) {
        return station_judged(held);
    }
    Judging {
        stage: JudgeStage::ReadStation,
        held,
    }
}

pub(crate) fn station_read(held: Held, event: Event, buf: &[u8]) -> Judging
    ensures { JudgesFrom JudgeStage.ReadStation held event buf.now result }
{
    match event {
        Event::Read(n) => match buf.get(..n) {
            Some(chunk) => station_chunk(held, chunk),
            None => Judging::stopped(held, Why::Broken),
        },
        Event::End => station_judged(held),
        Event::Failed => Judging::stopped(held, Why::Unread(STATION)),
        Event::Done | Event::Count(_) => Judging::stopped(held, Why::Broken),
    }
}

// A line that is refused ends the reading, so that a line without end does too.
fn samples_chunk(held: Held, chunk: &[u8]) -> Judging
    ensures { EntersSamples held chunk.now result }
{
    let check = feed(held.check, chunk);
    let tally = tallied(held.tally, chunk);
    let held = Held {
        check,
        tally,
        ..held
    };
    if is_refused(check) {
        return Judging {
            stage: JudgeStage::Judged,
            held,
        };
    }
    Judging {
        stage: JudgeStage::ReadSamples,
        held,
    }
}

pub(crate) fn samples_read(held: Held, event: Event, buf: &[u8]) -> Judging
    ensures { JudgesFrom JudgeStage.ReadSamples held event buf.now result }
{
    match event {
        Event::Read(n) => match buf.get(..n) {
            Some(chunk) => samples_chunk(held, chunk),
            None => Judging::stopped(held, Why::Broken),
        },
        Event::End => Judging {
            stage: JudgeStage::Judged,
            held,
        },
        Event::Failed => Judging::stopped(held, Why::Unread(SAMPLES)),
        Event::Done | Event::Count(_) => Judging::stopped(held, Why::Broken),
    }
}
