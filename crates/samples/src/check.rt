// The check of a sample file that comes in chunks of any length: all its rows are pulled, and counted.
ghost use Rattle.std.specs.Prelude.{◌≡◌, ℕ, List, [], ◌++◌, take};
ghost use Rattle.rules.specs.Answers.{result_of};
ghost use Rattle.sheet_stages.specs.ToCome.{placed, is_refused};
ghost use Rattle.samples.specs.Streamed.{one_more, CountedOn, sheet_span, checked_with};

use rules::answers::Refusal;
use rules::samples::Sample;
use sample_rows::reader::{SampleReader, end, kept, next_row, reader};
use sheet_headings::headings::Columns;
use sheet_stages::stage::{Stage, line_refused, next_line};
use usual_rows::usual::usual_later;

// How many rows were accepted, and the time of the last.
#[derive(Clone, Copy)]
pub struct Span {
    pub rows: u64,
    pub last: u32,
}

#[derive(Clone, Copy)]
pub struct SampleCheck {
    pub(crate) reader: SampleReader,
    pub(crate) span: Span,
}

fn counted(span: Span, found: Option<Sample>) -> Span
    ensures { result ≡ one_more span found }
{
    match found {
        Some(row) => Span {
            rows: span.rows.saturating_add(1),
            last: row.at,
        },
        None => span,
    }
}

// A check of a file, from its first byte.
pub fn check() -> SampleCheck
    ensures { (rest : List ℕ) → checked_with result rest ≡ placed (sheet_span rest) }
{
    SampleCheck {
        reader: reader(),
        span: Span { rows: 0, last: 0 },
    }
}

// What the lines came to once usual rows were read, those rows counted, and the place after them.
#[derive(Clone, Copy)]
struct RowsCounted {
    stage: Stage,
    span: Span,
    next: usize,
}

// The usual rows from a place of the chunk on, as long as each is later than the last. The loop carries numbers alone, since enums
// by value cost more than the rows.
fn usual_rows(
    columns: Columns,
    last: u32,
    lines: u64,
    span: Span,
    chunk: &[u8],
    at: usize,
) -> RowsCounted
    ensures { CountedOn (Stage.LaterRows columns last lines) [] span chunk.now at result }
{
    let mut latest = last;
    let mut line = lines;
    let mut rows = span.rows;
    let mut time = span.last;
    let mut next = at;
    while let Some(row) = usual_later(columns, latest, chunk, next) {
        latest = row.sample.at;
        line = next_line(line);
        rows = next_line(rows);
        time = latest;
        next = row.next;
    }
    RowsCounted {
        stage: Stage::LaterRows(columns, latest, line),
        span: Span { rows, last: time },
        next,
    }
}

// The same at any stage; there are none where a line has begun.
fn usual_rows_at(stage: Stage, len: usize, span: Span, chunk: &[u8], at: usize) -> RowsCounted
    ensures { (line : List ℕ) → CountedOn stage (take len line) span chunk.now at result }
{
    let none = RowsCounted {
        stage,
        span,
        next: at,
    };
    if 0 < len {
        return none;
    }
    let Stage::LaterRows(columns, last, lines) = stage else {
        return none;
    };
    usual_rows(columns, last, lines, span, chunk, at)
}

// The next bytes of the file.
pub fn feed(check: SampleCheck, chunk: &[u8]) -> SampleCheck
    ensures { (rest : List ℕ) → checked_with check (chunk.now ++ rest) ≡ checked_with result rest }
{
    let reader = check.reader;
    let line = reader.line;
    let mut len = reader.len;
    let mut stage = reader.stage;
    let mut span = check.span;
    let mut at = 0;
    while at < chunk.len() {
        let usual = usual_rows_at(stage, len, span, chunk, at);
        stage = usual.stage;
        span = usual.span;
        at = usual.next;
        let row = next_row(stage, &line, len, chunk, at);
        stage = row.stage;
        len = row.len;
        at = row.next;
        if row.found.is_none() {
            let begun = SampleReader { line, len, stage };
            return SampleCheck {
                reader: kept(begun, &chunk[at..]),
                span,
            };
        }
        span = counted(span, row.found);
    }
    SampleCheck {
        reader: SampleReader { line, len, stage },
        span,
    }
}

// The end of the file.
pub fn finish(check: SampleCheck) -> Result<Span, Refusal>
    ensures { result_of result ≡ checked_with check [] }
{
    let last = end(check.reader)?;
    Ok(counted(check.span, last))
}

// Whether a line was refused, so that the rest of the file needs no reading.
pub fn is_refused(check: SampleCheck) -> bool
    ensures { result ≡ is_refused check.reader.stage }
{
    line_refused(check.reader.stage)
}

// A file that is there as a whole.
pub fn check_samples(file: &[u8]) -> Result<Span, Refusal>
    ensures { result_of result ≡ sheet_span file.now }
{
    finish(feed(check(), file))
}
