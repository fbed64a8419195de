// Rows of thirteen numbers as text, one line after the other.
ghost use Rattle.std.specs.Prelude.{◌≡◌, true, ◌+◌, ◌-◌, ◌≤◌, length, take, drop};
ghost use Rattle.texts.specs.Placed.{placed};
ghost use Rattle.row_texts.specs.RowLines.{LinesPut, LineAt, Puttable, NextRow};

use decimals::numbers::{put_commaed, put_numbers};
use rules::limits::ROW_COLUMNS;
use texts::put_text;

// Room for any thirteen numbers of 64 bits: 20 digits and the byte after them for each.
const MOST_BYTES: usize = 273;

// The columns up to the diesel power: most rows have others than the row before.
const CHANGING: usize = 8;

// The columns after them.
const KEPT: usize = ROW_COLUMNS - CHANGING;

// How many rows were put, and how many bytes they have.
#[derive(Clone, Copy)]
pub struct RowsPut {
    pub count: usize,
    pub bytes: usize,
}

// Where a row's line ends, and where the text of its last five numbers begins.
#[derive(Clone, Copy)]
struct LinePut {
    kept: usize,
    end: usize,
}

// Whether the row that begins at a place ends with the five numbers of the row before it: unserved, the sets On, the call and the store
// seldom change.
fn ends_alike(numbers: &[u64], start: usize) -> bool
    requires { start + 13 ≤ length numbers.now }
    ensures { result ≡ true → (13 ≤ start) × (take 5 (drop (start + 8) numbers.now) ≡ take 5 (drop (start - 5) numbers.now)) }
{
    if start < ROW_COLUMNS {
        return false;
    }
    numbers[start + CHANGING..start + ROW_COLUMNS] == numbers[start - KEPT..start]
}

// Bytes that stand in the buffer before `at`, put again from there on: where they end.
fn put_again(from: usize, size: usize, at: usize, buffer: &mut [u8]) -> usize
    requires { (from + size ≤ at) × (at + size ≤ length buffer.old) }
    ensures { (result ≡ at + size) × (buffer.new ≡ placed buffer.old at (take size (drop from buffer.old))) }
{
    buffer.copy_within(from..from + size, at);
    at + size
}

// A row's line from `at` on, where any row's has room. Where the text of its last five numbers stands from `kept` to `at`, it is put
// again, and not made anew.
fn put_line(row: &[u64], alike: bool, kept: usize, at: usize, out: &mut [u8]) -> LinePut
    requires { Puttable row.now alike kept at out.old }
    ensures { LineAt row.now at out.old result out.new }
{
    let last = put_commaed(&row[..CHANGING], at, out);
    if alike {
        return LinePut {
            kept: last,
            end: put_again(kept, at - kept, last, out),
        };
    }
    LinePut {
        kept: last,
        end: put_numbers(&row[CHANGING..], last, out),
    }
}

// The same where a row may have no room: its line is made beside the buffer, and put where it fits.
fn put_made(row: &[u64], at: usize, out: &mut [u8]) -> LinePut
    requires { (length row.now ≡ 13) × (at ≤ length out.old) }
    ensures { LineAt row.now at out.old result out.new }
{
    let mut line = [0u8; 273];
    let last = put_commaed(&row[..CHANGING], 0, &mut line);
    let size = put_numbers(&row[CHANGING..], last, &mut line);
    LinePut {
        kept: at + last,
        end: put_text(&line[..size], at, out),
    }
}

// The line of the row that begins at a place, from `at` on.
fn put_next(numbers: &[u64], start: usize, kept: usize, at: usize, out: &mut [u8]) -> LinePut
    requires { NextRow numbers.now start kept at out.old }
    ensures { LineAt (take 13 (drop start numbers.now)) at out.old result out.new }
{
    let end = start + ROW_COLUMNS;
    if out.len() - at < MOST_BYTES {
        return put_made(&numbers[start..end], at, out);
    }
    let alike = ends_alike(numbers, start);
    put_line(&numbers[start..end], alike, kept, at, out)
}

// The lines of rows of thirteen numbers, as many whole ones as have room, at the buffer's front.
pub fn put_rows(numbers: &[u64], out: &mut [u8]) -> RowsPut
    ensures { LinesPut numbers.now out.old result out.new }
{
    let rows = numbers.len() / ROW_COLUMNS;
    let mut bytes: usize = 0;
    let mut kept: usize = 0;
    for count in 0..rows {
        let put = put_next(numbers, ROW_COLUMNS * count, kept, bytes, out);
        if put.end == bytes {
            return RowsPut { count, bytes };
        }
        kept = put.kept;
        bytes = put.end;
    }
    RowsPut { count: rows, bytes }
}
