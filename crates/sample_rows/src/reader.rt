// The rows of a sample file that comes in chunks of any length: the reader goes in by value and comes back.
ghost use Rattle.std.specs.Prelude.{◌≡◌, ℕ, ◌<◌, true, List, [], ◌∷◌, ◌++◌, length, take, is_some};
ghost use Rattle.rules.specs.Lines.{Line, ended as ended_line, without_cr};
ghost use Rattle.sheet_stages.specs.ToCome.{to_come, file_rows, row_first};
ghost use Rattle.sample_rows.specs.Streamed.{lines_after, begun_in, text_of, yet_to_come, ExtendedRight, LineRight, NextRight, PulledRight, ending_of};
ghost use Rattle.rules.specs.Answers.{accepted};

use rules::answers::Refusal;
use rules::limits::MOST_LINE;
use rules::samples::Sample;
use sheet_headings::headings::Columns;
use sheet_stages::stage::{Stage, Turn, after_later, next_line, take_line, too_long, verdict_at};
use usual_rows::usual::usual_row;

// The bytes of the line that has begun, and what the lines before it came to.
#[derive(Clone, Copy)]
pub struct SampleReader {
    pub line: [u8; 512],
    pub len: usize,
    pub stage: Stage,
}

// A row, or nothing where the chunk has no further one; the chunk is to be read on at `next`.
#[derive(Clone, Copy)]
pub struct Pulled {
    pub reader: SampleReader,
    pub next: usize,
    pub found: Option<Sample>,
}

// What a line of a chunk gave, and the place after its LF.
#[derive(Clone, Copy)]
struct LineTurn {
    turn: Turn,
    next: usize,
}

// The next row of the lines that end in a chunk; the chunk is to be read on at `next`, where `len` bytes of a line have begun.
#[derive(Clone, Copy)]
pub struct NextRow {
    pub stage: Stage,
    pub len: usize,
    pub next: usize,
    pub found: Option<Sample>,
}

// A line with more bytes after those that it had.
#[derive(Clone, Copy)]
struct Extended {
    line: [u8; 512],
    len: usize,
}

// "one CR just before it is dropped"
fn without_cr(line: &[u8]) -> &[u8]
    ensures { result.now ≡ without_cr line.now }
{
    let n = line.len();
    if n == 0 {
        return line;
    }
    if line[n - 1] == b'\r' {
        return &line[..n - 1];
    }
    line
}

// "A line ends at LF (one CR just before it is dropped) or at the end of the file": its text.
fn text_of(line: &[u8], ended: bool) -> &[u8]
    ensures { result.now ≡ text_of ended line.now }
{
    if ended {
        return without_cr(line);
    }
    line
}

// A line that ends at LF, or at the end of the file.
fn whole_line(stage: Stage, line: &[u8], ended: bool) -> Turn
    ensures { (ls : List Line) → to_come stage (record { size = length line.now; text = text_of ended line.now } ∷ ls) ≡ row_first result.found (to_come result.stage ls) }
{
    take_line(stage, line.len(), text_of(line, ended))
}

// The line's first `len` bytes and then `more`, unless that is longer than a line may be.
fn extended_by(line: [u8; 512], len: usize, more: &[u8]) -> Option<Extended>
    ensures { ExtendedRight (take len line ++ more.now) result }
{
    let held = len.min(MOST_LINE);
    if MOST_LINE - held < more.len() {
        return None;
    }
    let mut whole = line;
    let end = held + more.len();
    whole[held..end].copy_from_slice(more);
    Some(Extended {
        line: whole,
        len: end,
    })
}

// The line that had begun, ended by these bytes; the usual line lies whole in them, so that nothing is copied.
fn joined_line(stage: Stage, line: &[u8; 512], len: usize, more: &[u8]) -> Turn
    ensures { (ls : List Line) → to_come stage (ended_line (take len line.now ++ more.now) ∷ ls) ≡ row_first result.found (to_come result.stage ls) }
{
    if len == 0 {
        return whole_line(stage, more, true);
    }
    let Some(whole) = extended_by(*line, len, more) else {
        return Turn {
            stage: too_long(stage),
            found: None,
        };
    };
    whole_line(stage, &whole.line[..whole.len], true)
}

// The line that has begun goes on with these bytes, a chunk's after its last LF; where it is too long, no byte of it is wanted any more.
pub fn kept(reader: SampleReader, more: &[u8]) -> SampleReader
    ensures { (rest : List ℕ) → yet_to_come result rest ≡ to_come reader.stage (lines_after (begun_in reader ++ more.now) rest) }
{
    let stage = reader.stage;
    let line = reader.line;
    let Some(whole) = extended_by(line, reader.len, more) else {
        return SampleReader {
            line,
            len: 0,
            stage: too_long(stage),
        };
    };
    let line = whole.line;
    SampleReader {
        line,
        len: whole.len,
        stage,
    }
}

// A reader of the rows of a file, from its first byte.
pub fn reader() -> SampleReader
    ensures { (rest : List ℕ) → yet_to_come result rest ≡ file_rows rest }
{
    SampleReader {
        line: [0; 512],
        len: 0,
        stage: Stage::Heading,
    }
}

// The line from a place of the chunk on, with the bytes that it had before, where the chunk has its LF.
fn any_line(stage: Stage, line: &[u8; 512], len: usize, chunk: &[u8], at: usize) -> Option<LineTurn>
    requires { at < length chunk.now }
    ensures { LineRight stage (take len line.now) chunk.now at result }
{
    let end = byte_search::find(chunk, at, chunk.len(), b'\n');
    if chunk.len() <= end {
        return None;
    }
    Some(LineTurn {
        turn: joined_line(stage, line, len, &chunk[at..end]),
        next: end + 1,
    })
}

// The same; the usual row lies whole in the chunk, and is read in one pass over its bytes.
fn line_at(stage: Stage, line: &[u8; 512], len: usize, chunk: &[u8], at: usize) -> Option<LineTurn>
    requires { at < length chunk.now }
    ensures { LineRight stage (take len line.now) chunk.now at result }
{
    if 0 < len {
        return any_line(stage, line, len, chunk, at);
    }
    let Stage::LaterRows(columns, last, lines) = stage else {
        return any_line(stage, line, len, chunk, at);
    };
    let Some(row) = usual_row(columns, chunk, at) else {
        return any_line(stage, line, len, chunk, at);
    };
    Some(LineTurn {
        turn: after_later(columns, last, next_line(lines), Ok(row.sample)),
        next: row.next,
    })
}

// The next row out of the lines that end in the chunk, from a place on; the bytes of the line that has begun are left alone.
pub fn next_row(stage: Stage, line: &[u8; 512], len: usize, chunk: &[u8], at: usize) -> NextRow
    ensures { NextRight stage line.now len chunk.now at result }
{
    let mut latest = stage;
    let mut begun = len;
    let mut next = at.min(chunk.len());
    while next < chunk.len() {
        let Some(ended) = line_at(latest, line, begun, chunk, next) else {
            return NextRow {
                stage: latest,
                len: begun,
                next,
                found: None,
            };
        };
        latest = ended.turn.stage;
        begun = 0;
        next = ended.next;
        if ended.turn.found.is_some() {
            return NextRow {
                stage: latest,
                len: begun,
                next,
                found: ended.turn.found,
            };
        }
    }
    NextRow {
        stage: latest,
        len: begun,
        next,
        found: None,
    }
}

// The next row out of the chunk, from a place on.
pub fn pull(reader: SampleReader, chunk: &[u8], at: usize) -> Pulled
    ensures { PulledRight reader chunk.now at result }
{
    let line = reader.line;
    let row = next_row(reader.stage, &line, reader.len, chunk, at);
    let after = SampleReader {
        line,
        len: row.len,
        stage: row.stage,
    };
    if row.found.is_some() {
        return Pulled {
            reader: after,
            next: row.next,
            found: row.found,
        };
    }
    Pulled {
        reader: kept(after, &chunk[row.next..]),
        next: chunk.len(),
        found: None,
    }
}

// The end of the file after a line that gave this; a line that gives a row leaves no refusal.
fn ended_at(turn: Turn) -> Result<Option<Sample>, Refusal>
    requires { is_some turn.found ≡ true → (to_come turn.stage []).verdict ≡ accepted tt }
    ensures { ending_of result ≡ row_first turn.found (to_come turn.stage []) }
{
    verdict_at(turn.stage)?;
    Ok(turn.found)
}

// The end of the file: "A line ends at LF .. or at the end of the file".
pub fn end(reader: SampleReader) -> Result<Option<Sample>, Refusal>
    ensures { ending_of result ≡ yet_to_come reader [] }
{
    let line = reader.line;
    let stage = reader.stage;
    let len = reader.len.min(MOST_LINE);
    if len == 0 {
        return ended_at(Turn { stage, found: None });
    }
    ended_at(whole_line(stage, &line[..len], false))
}
