// The usual row in one pass over its bytes: every cell has its form and is within its limit, and LF, or CR and LF, follows the last.
// Any other row is left to `rows`, which says what is wrong with it.
ghost use Rattle.std.specs.Prelude.{◌≡◌, ◌+◌, ◌-◌, ◌^◌, ◌<◌, ◌≤◌, true, length};
ghost use Rattle.rules.specs.SampleFile.{time_cell, power_cell};
ghost use Rattle.usual_rows.specs.Usual.{DigitsTaken, CellOf, TimeOf, PowerOf, PowersOf, EndOf, PowersNamed, UsualOf, UsualLaterOf};

use rules::limits::{MOST_DECIMALS, MOST_KW_DIGITS, MOST_POWER, MOST_TIME, MOST_TIME_DIGITS};
use rules::samples::Sample;
use sheet::numbers::last_worth;
use sheet::rows::{Powers, value_under};
use sheet_headings::headings::Columns;

// The most bytes that a usual row has: 9 digits, three powers of 10 bytes, three commas, CR and LF.
const MOST_USUAL: usize = 44;

// A row, and the place after its LF.
#[derive(Clone, Copy)]
pub struct UsualRow {
    pub sample: Sample,
    pub next: usize,
}

// A number that was read, and where it ends.
#[derive(Clone, Copy)]
struct NumberRead {
    end: usize,
    number: u32,
}

// A cell as the part of the text that it is, and its number.
#[derive(Clone, Copy)]
struct Cell<'a> {
    part: &'a [u8],
    number: u32,
}

// Three powers that were read, and where they end.
#[derive(Clone, Copy)]
struct PowersRead {
    end: usize,
    powers: Powers,
}

// At most so many digits from a place on, after digits whose number is `before`.
fn digits_from(text: &[u8], at: usize, most: usize, before: u32) -> NumberRead
    requires { (at + most ≤ length text.now) × (most ≤ 9) × (before < 10 ^ (9 - most)) }
    ensures { DigitsTaken text.now at most before result }
{
    let mut number = before;
    for i in at..at + most {
        // one test for both ends: a byte below b'0' wraps to a large number
        let digit = u32::from(text[i]).wrapping_sub(48);
        if 9 < digit {
            return NumberRead { end: i, number };
        }
        number = number * 10 + digit;
    }
    NumberRead {
        end: at + most,
        number,
    }
}

// The cell of a time from a place on, handed back as the part of the text that it is: "1 to 9 digits".
fn time_cell(text: &[u8], at: usize) -> Option<Cell<'_>>
    requires { at + 9 ≤ length text.now }
    ensures { CellOf time_cell 9 text.now at result }
{
    let digits = digits_from(text, at, MOST_TIME_DIGITS, 0);
    if digits.end == at {
        return None;
    }
    Some(Cell {
        part: &text[at..digits.end],
        number: digits.number,
    })
}

// The cell of a power, likewise, with its watts: "1 to 6 digits, then nothing or a point and 1 to 3 digits".
fn power_cell(text: &[u8], at: usize) -> Option<Cell<'_>>
    requires { at + 11 ≤ length text.now }
    ensures { CellOf power_cell 10 text.now at result }
{
    let whole = digits_from(text, at, MOST_KW_DIGITS, 0);
    let point = whole.end;
    if point == at {
        return None;
    }
    if text[point] != b'.' {
        return Some(Cell {
            part: &text[at..point],
            number: whole.number * 1000,
        });
    }
    let start = point + 1;
    let all = digits_from(text, start, MOST_DECIMALS, whole.number);
    if all.end == start {
        return None;
    }
    Some(Cell {
        part: &text[at..all.end],
        number: all.number * last_worth(all.end - start),
    })
}

// The time from a place on, "at most 316,223,999".
fn time_from(text: &[u8], at: usize) -> Option<NumberRead>
    requires { at + 9 ≤ length text.now }
    ensures { TimeOf text.now at result }
{
    let cell = time_cell(text, at)?;
    if MOST_TIME < cell.number {
        return None;
    }
    Some(NumberRead {
        end: at + cell.part.len(),
        number: cell.number,
    })
}

// The power after a comma, "at most 50,000 kW".
fn power_after(text: &[u8], comma: usize) -> Option<NumberRead>
    requires { comma + 12 ≤ length text.now }
    ensures { PowerOf text.now comma result }
{
    if text[comma] != b',' {
        return None;
    }
    let start = comma + 1;
    let cell = power_cell(text, start)?;
    if MOST_POWER < cell.number {
        return None;
    }
    Some(NumberRead {
        end: start + cell.part.len(),
        number: cell.number,
    })
}

// Three powers, each after a comma. The loop has the one call of `power_after`, so that it costs no call.
fn powers_after(text: &[u8], comma: usize) -> Option<PowersRead>
    requires { comma + 34 ≤ length text.now }
    ensures { PowersOf text.now comma result }
{
    let mut watts = [0; 3];
    let mut end = comma;
    for watt in watts.iter_mut() {
        let Some(power) = power_after(text, end) else {
            return None;
        };
        *watt = power.number;
        end = power.end;
    }
    let powers = Powers {
        second: watts[0],
        third: watts[1],
        fourth: watts[2],
    };
    Some(PowersRead { end, powers })
}

// The end of a line at a place: "at LF (one CR just before it is dropped)".
fn end_from(text: &[u8], at: usize) -> Option<usize>
    requires { at + 2 ≤ length text.now }
    ensures { EndOf text.now at result }
{
    let second = at + 1;
    if text[at] == b'\n' {
        return Some(second);
    }
    if (text[at] == b'\r') & (text[second] == b'\n') {
        return Some(second + 1);
    }
    None
}

// Whether each column after the time's has the name of a power.
fn powers_named(columns: Columns) -> bool
    ensures { result ≡ true → PowersNamed columns }
{
    (0 < columns.second)
        & (columns.second <= 3)
        & (0 < columns.third)
        & (columns.third <= 3)
        & (0 < columns.fourth)
        & (columns.fourth <= 3)
}

// Whether so many bytes have room for a usual row from a place on.
fn has_room(len: usize, at: usize) -> bool
    ensures { result ≡ true → at + 44 ≤ len }
{
    MOST_USUAL <= len && at <= len - MOST_USUAL
}

// The line from a place on, where it is a usual row.
pub fn usual_row(columns: Columns, text: &[u8], at: usize) -> Option<UsualRow>
    ensures { UsualOf columns text.now at result }
{
    if !has_room(text.len(), at) || !powers_named(columns) {
        return None;
    }
    let Some(time) = time_from(text, at) else {
        return None;
    };
    let cells = powers_after(text, time.end)?;
    let next = end_from(text, cells.end)?;
    let sample = Sample {
        at: time.number,
        load: value_under(1, columns, cells.powers),
        solar: value_under(2, columns, cells.powers),
        sheddable: value_under(3, columns, cells.powers),
    };
    if sample.load < sample.sheddable {
        return None;
    }
    Some(UsualRow { sample, next })
}

// The row from a place of the chunk on, where it is a usual one that is later than the last.
pub fn usual_later(columns: Columns, last: u32, chunk: &[u8], at: usize) -> Option<UsualRow>
    ensures { UsualLaterOf columns last chunk.now at result }
{
    let row = usual_row(columns, chunk, at)?;
    if row.sample.at <= last {
        return None;
    }
    Some(row)
}
