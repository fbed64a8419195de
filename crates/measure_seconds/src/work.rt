// The seconds worked: one call for each, or one for each batch.
ghost use Rattle.std.specs.Prelude.{◌≤◌};

use crate::inputs::{inputs_of, put_inputs};
use crate::output::is_written;
use crate::row_bytes::RowBytes;
use dispatch::second::second;
use row_texts::put_rows::put_rows;
use rules::answers::{Ended, Refusal};
use rules::limits::{ROW_COLUMNS, SECOND_INPUTS};
use rules::run::{Run, Worked};
use rules::station::Station;
use steady::seconds::seconds;

// Seconds in a batch: their numbers stay in the processor's first cache, and the text of any rows has room in 65,536 bytes.
const BATCH: u32 = 384;

// The record, the seconds and the rows' bytes so far, and whether a refusal ended them.
#[derive(Clone, Copy)]
pub(crate) struct Tally {
    pub(crate) run: Run,
    pub(crate) seconds: u64,
    pub(crate) bytes: RowBytes,
    pub(crate) verdict: Result<(), Refusal>,
}

fn none_worked(first: Run) -> Tally {
    Tally {
        run: first,
        seconds: 0,
        bytes: RowBytes::new(),
        verdict: Ok(()),
    }
}

pub(crate) fn work_each(st: Station, first: Run, asked: u32) -> Tally {
    let mut row = [0u8; 256];
    let mut tally = none_worked(first);
    for i in 0..asked {
        let handed = second(st, tally.run, inputs_of(i), &mut row);
        match handed.answer {
            Ok(size) => {
                tally.run = handed.run;
                tally.seconds = u64::from(i) + 1;
                tally.bytes = tally.bytes.with(start_of(&row, size));
            }
            Err(refusal) => {
                tally.verdict = Err(refusal);
                return tally;
            }
        }
    }
    tally
}

// How many seconds the next batch has; none where all are done.
fn next_count(asked: u32, done: u32) -> usize
    ensures { result ≤ 384 }
{
    asked.saturating_sub(done).min(BATCH) as usize
}

fn work_batch(st: Station, run: Run, count: usize, rows: &mut [u64]) -> Worked
    requires { count ≤ 384 }
{
    let mut inputs = [0u32; 1_152];
    put_inputs(run.done, count, &mut inputs);
    seconds(st, run, &inputs[..SECOND_INPUTS * count], rows)
}

// The first bytes of a buffer: no call answers more than its buffer has.
fn start_of(buffer: &[u8], size: usize) -> &[u8] {
    buffer.get(..size).unwrap_or(b"")
}

// The text of the first rows: its length.
fn put_text(rows: &[u64], count: usize, text: &mut [u8]) -> usize {
    // never taken: the rows have a place for each second that was worked
    if rows.len() / ROW_COLUMNS < count {
        return 0;
    }
    put_rows(&rows[..ROW_COLUMNS * count], text).bytes
}

// What the rules answer to the second that comes next, asked of that second alone.
fn next_verdict(st: Station, run: Run) -> Result<(), Refusal> {
    let mut row = [0u8; 256];
    second(st, run, inputs_of(run.done), &mut row).answer?;
    Ok(())
}

fn verdict_of(st: Station, worked: Worked) -> Result<(), Refusal> {
    match worked.ended {
        Ended::BeforeRefused => next_verdict(st, worked.run),
        Ended::AllWorked | Ended::NoRoom => Ok(()),
    }
}

// One batch after the other through the same rows and one buffer for their text; `shown` where it is written to standard output too.
pub(crate) fn work_many(
    rt: &HostRuntime,
    st: Station,
    first: Run,
    asked: u32,
    shown: bool,
    text: &mut [u8],
) -> Tally {
    let mut rows = [0u64; 4_992];
    let mut tally = none_worked(first);
    for _ in 0..asked {
        let count = next_count(asked, tally.run.done);
        if count == 0 {
            return tally;
        }
        let worked = work_batch(st, tally.run, count, &mut rows);
        let size = put_text(&rows, worked.seconds, text);
        let text = start_of(text, size);
        tally = Tally {
            run: worked.run,
            seconds: tally.seconds.wrapping_add(worked.seconds as u64),
            bytes: tally.bytes.with(text),
            verdict: verdict_of(st, worked),
        };
        if shown && !is_written(rt, text) {
            return tally;
        }
        if tally.verdict.is_err() {
            return tally;
        }
    }
    tally
}
