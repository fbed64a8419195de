// What each second of a run is handed, of a sample file that comes in chunks of any length: "A row holds until the next."
ghost use Rattle.std.specs.Prelude.{◌≡◌, ℕ, ◌+◌, ◌≤◌, ◌<◌, false, List, ◌++◌, length, drop, set};
ghost use Rattle.sheet_stages.specs.ToCome.{to_come};
ghost use Rattle.sample_rows.specs.Streamed.{lines_after, begun_in, yet_to_come};
ghost use Rattle.rows_in_force.specs.Held.{reader_at};
ghost use Rattle.input_source.specs.Source.{source_refused};
ghost use Rattle.held_inputs.specs.Filling.{places_of, FilledRight, fill_begun, filled_at, filled_short, told_at};

use crate::usual_seconds::{FillState, usual_seconds};
use input_source::source::{InputSource, source_refused};
use rows_in_force::in_force::{Begun, Reached, reach};
use sample_rows::reader::{SampleReader, kept};

// So many seconds were told; the chunk is to be read on at `next`.
#[derive(Clone, Copy)]
pub struct Filled {
    pub source: InputSource,
    pub next: usize,
    pub seconds: usize,
}

// Before the first second.
fn fill_begun(source: InputSource, next: usize) -> FillState
    ensures { result ≡ fill_begun source next }
{
    FillState {
        reached: Reached {
            begun: Begun {
                stage: source.reader.stage,
                len: source.reader.len,
            },
            now: source.now,
            ahead: source.ahead,
            next,
        },
        seconds: 0,
    }
}

// The reader of a line that has begun.
fn reader_at(begun: Begun, line: [u8; 512]) -> SampleReader
    ensures { result ≡ reader_at begun line }
{
    SampleReader {
        line,
        len: begun.len,
        stage: begun.stage,
    }
}

// The seconds told, with the bytes of the line that has begun.
fn filled_at(told: FillState, line: [u8; 512]) -> Filled
    ensures { result ≡ filled_at told line }
{
    Filled {
        source: InputSource {
            reader: reader_at(told.reached.begun, line),
            now: told.reached.now,
            ahead: told.reached.ahead,
        },
        next: told.reached.next,
        seconds: told.seconds,
    }
}

// The chunk ends before the next second is told, so that its last bytes are kept.
fn filled_short(reached: Reached, line: [u8; 512], seconds: usize, chunk: &[u8]) -> Filled
    requires { reached.next ≤ length chunk.now }
    ensures value { result ≡ filled_short reached result.source.reader seconds (length chunk.now) }
    ensures by_index { (rest : List ℕ) → yet_to_come result.source.reader rest ≡ to_come reached.begun.stage (lines_after (begun_in (reader_at reached.begun line) ++ drop reached.next chunk.now) rest) }
{
    Filled {
        source: InputSource {
            reader: kept(reader_at(reached.begun, line), &chunk[reached.next..]),
            now: reached.now,
            ahead: reached.ahead,
        },
        next: chunk.len(),
        seconds,
    }
}

// One second more, at the place `i` of each slice.
fn second_told(
    reached: Reached,
    i: usize,
    loads: &mut [u32],
    solars: &mut [u32],
    sheddables: &mut [u32],
) -> FillState
    requires { i < places_of loads.old solars.old sheddables.old }
    ensures value { result ≡ told_at reached (i + 1) }
    ensures loads_after { (loads.new ≡ set loads.old i reached.now.load) × (solars.new ≡ set solars.old i reached.now.solar) × (sheddables.new ≡ set sheddables.old i reached.now.sheddable) }
{
    loads[i] = reached.now.load;
    solars[i] = reached.now.solar;
    sheddables[i] = reached.now.sheddable;
    FillState {
        reached,
        seconds: i + 1,
    }
}

// The seconds of a file that is not refused; `first` is the first of them. The usual ones go on in numbers, and any other is reached.
fn fill_seconds(
    source: InputSource,
    first: usize,
    chunk: &[u8],
    at: usize,
    loads: &mut [u32],
    solars: &mut [u32],
    sheddables: &mut [u32],
) -> Filled
    requires { (first ≤ 4294967295) × (source_refused source ≡ false) }
    ensures { FilledRight source first chunk.now at loads.old solars.old sheddables.old result loads.new solars.new sheddables.new }
{
    let places = loads.len().min(solars.len().min(sheddables.len()));
    let reader = source.reader;
    let line = reader.line;
    let mut told = fill_begun(source, at.min(chunk.len()));
    while told.seconds < places {
        let usual = usual_seconds(told, first, places, chunk, loads, solars, sheddables);
        let i = usual.seconds;
        if places <= i {
            return filled_at(usual, line);
        }
        let reached = reach(usual.reached, &line, first + i, chunk);
        if reached.ahead.is_unread() {
            return filled_short(reached, line, i, chunk);
        }
        told = second_told(reached, i, loads, solars, sheddables);
    }
    filled_at(told, line)
}

// The inputs of the seconds from `second` on, one in each place of the three slices, as far as the chunk from `at` on tells them.
pub fn fill(
    source: InputSource,
    second: u32,
    chunk: &[u8],
    at: usize,
    loads: &mut [u32],
    solars: &mut [u32],
    sheddables: &mut [u32],
) -> Filled
    ensures { FilledRight source second chunk.now at loads.old solars.old sheddables.old result loads.new solars.new sheddables.new }
{
    if source_refused(source) {
        return Filled {
            source,
            next: chunk.len(),
            seconds: 0,
        };
    }
    fill_seconds(
        source,
        second as usize,
        chunk,
        at,
        loads,
        solars,
        sheddables,
    )
}
