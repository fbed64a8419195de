#![tactic(auto)]
// The streamed check and the streamed reader at any chunk size, called from C by the tests. No answer depends on the size.
ghost use Rattle.std.specs.Prelude.{◌≡◌, ◌≤◌, ◌<◌, [], length};
ghost use Rattle.rules.specs.Answers.{result_of};
ghost use Rattle.sheet_stages.specs.ToCome.{placed, RowsRead, file_rows, row_first, all_read};
ghost use Rattle.sample_rows.specs.Streamed.{yet_to_come};
ghost use Rattle.samples.specs.Streamed.{sheet_span, checked_with};
ghost use Rattle.test_chunks.specs.Answers.{span_answer, row_answer, found_answer};
ghost use Rattle.test_chunks.specs.Seeking.{chunk_end, sought_in};
ghost use Rattle.test_chunks.specs.declared.Sought.{Sought};

use rules::answers::Refusal;
use rules::samples::Sample;
use sample_rows::reader::{SampleReader, end, pull, reader};
use samples::check::{SampleCheck, Span, check, feed, finish};
use words::refusals::NumberAndPlace;

// `number` is 0 where the file is accepted; then `rows` and `last` are its span.
#[repr(C)]
#[derive(Clone, Copy)]
pub struct ChunkedAnswer {
    pub number: u64,
    pub place: u64,
    pub rows: u64,
    pub last: u64,
}

// `found` is 1, or 0 where there is no such row.
#[repr(C)]
#[derive(Clone, Copy)]
pub struct ChunkedRow {
    pub found: u64,
    pub at: u64,
    pub load: u64,
    pub solar: u64,
    pub sheddable: u64,
}

// Where a chunk of so many bytes ends, at least 1 and at most what is left of the file.
fn chunk_end(file: &[u8], at: usize, size: u64) -> usize
    requires { at < length file.now }
    ensures { (at < result) × (result ≤ length file.now) × (result ≡ chunk_end (length file.now) at size) }
{
    let left = (file.len() - at) as u64;
    if size == 0 {
        return at + 1;
    }
    if size < left {
        return at + (size as usize);
    }
    file.len()
}

// All of the file, chunk by chunk.
fn fed_in_chunks(file: &[u8], size: u64) -> SampleCheck
    ensures { checked_with result [] ≡ placed (sheet_span file.now) }
{
    let mut fed = check();
    let mut at = 0;
    while at < file.len() {
        let end = chunk_end(file, at, size);
        fed = feed(fed, &file[at..end]);
        at = end;
    }
    fed
}

fn span_answer(checked: Result<Span, Refusal>) -> ChunkedAnswer
    ensures { result ≡ span_answer (result_of checked) }
{
    match checked {
        Ok(span) => ChunkedAnswer {
            number: 0,
            place: 0,
            rows: span.rows,
            last: span.last as u64,
        },
        Err(refusal) => {
            let told = NumberAndPlace::from(refusal);
            ChunkedAnswer {
                number: told.number,
                place: told.place,
                rows: 0,
                last: 0,
            }
        }
    }
}

// The check of a file that is fed in chunks of `size` bytes, of which the last may be shorter; a size of 0 counts as 1.
#[unsafe(no_mangle)]
pub extern "C" fn chunked_check(samples: &[u8], size: u64) -> ChunkedAnswer
    ensures { result ≡ span_answer (sheet_span samples.now) }
{
    span_answer(finish(fed_in_chunks(samples, size)))
}

fn row_answer(found: Option<Sample>) -> ChunkedRow
    ensures { result ≡ found_answer found }
{
    match found {
        Some(row) => ChunkedRow {
            found: 1,
            at: row.at as u64,
            load: row.load as u64,
            solar: row.solar as u64,
            sheddable: row.sheddable as u64,
        },
        None => ChunkedRow {
            found: 0,
            at: 0,
            load: 0,
            solar: 0,
            sheddable: 0,
        },
    }
}

// How many rows come before the one that is asked for, or that row.
#[derive(Clone, Copy)]
enum Sought {
    After(u64),
    Came(Sample),
}

// One row less to pass over; the row that is asked for stays.
fn passed(sought: Sought, found: Option<Sample>) -> Sought
    ensures { (rows : RowsRead) → sought_in sought (row_first found rows) ≡ sought_in result rows }
{
    match found {
        None => sought,
        Some(row) => match sought {
            Sought::Came(came) => Sought::Came(came),
            Sought::After(before) => {
                if before == 0 {
                    return Sought::Came(row);
                }
                Sought::After(before - 1)
            }
        },
    }
}

fn row_that_came(sought: Sought) -> Option<Sample>
    ensures { result ≡ sought_in sought (all_read []) }
{
    match sought {
        Sought::Came(row) => Some(row),
        Sought::After(_) => None,
    }
}

// The end of the file, whose last line may give the row.
fn row_at_end(reader: SampleReader, sought: Sought) -> Option<Sample>
    ensures { result ≡ sought_in sought (yet_to_come reader []) }
{
    row_that_came(passed(sought, end(reader).unwrap_or(None)))
}

// All rows of the file, out of one chunk after the other; a chunk is left as soon as its end is reached, so that every pull goes ahead.
fn row_in_chunks(file: &[u8], size: u64, row: u64) -> Option<Sample>
    ensures { result ≡ sought_in (Sought.After row) (file_rows file.now) }
{
    let mut reading = reader();
    let mut sought = Sought::After(row);
    let mut start = 0;
    let mut next = 0;
    while start < file.len() {
        let end = chunk_end(file, start, size);
        let pulled = pull(reading, &file[start..end], next);
        reading = pulled.reader;
        sought = passed(sought, pulled.found);
        next = pulled.next;
        if next == end - start {
            start = end;
            next = 0;
        }
    }
    row_at_end(reading, sought)
}

// The row with an index, counted from 0, of a file that is read in chunks as those of `chunked_check`; a refused file has the rows of
// the lines before the refused one.
#[unsafe(no_mangle)]
pub extern "C" fn chunked_rows(samples: &[u8], size: u64, row: u64) -> ChunkedRow
    ensures { result ≡ row_answer row (file_rows samples.now) }
{
    row_answer(row_in_chunks(samples, size, row))
}
