// Refusals 12, 13, 14, 18 and 19 for a clerk: the first heading or cell of a line that has the fault.
use crate::columns::{column_of, name_at, part_at, parts_of};
use crate::line_faults::{say_cell, say_line};
use crate::line_rules::MOST_KW;
use plain_words::numbers::number_from_one;
use plain_words::shown::show;
use plain_words::texts::say;
use rules::limits::MOST_TIME;
use sheet::numbers::{CellFault, cell_under};
use sheet_headings::headings::name_of;
use std::io::Write;

// What can be wrong with a heading, and with a cell.
#[derive(Clone, Copy)]
pub enum PartFault {
    Blank,
    Unknown,
    Twice,
    Malformed,
    OverLimit,
}

// What `name_of` answers for a heading that is none of the names.
const NO_NAME: u8 = 4;

// The cell under the heading at its place.
fn value_at(headings: &[u8], place: usize, part: &[u8]) -> Result<u32, CellFault> {
    cell_under(name_at(headings, place), part)
}

// Whether the heading or cell at a place has the fault.
fn has_fault(fault: PartFault, headings: &[u8], text: &[u8], place: usize) -> bool {
    let part = part_at(text, place);
    match fault {
        PartFault::Blank => part.is_empty(),
        PartFault::Unknown => name_of(part) == NO_NAME,
        PartFault::Twice => column_of(text, name_of(part)).is_some_and(|first| first < place),
        PartFault::Malformed => matches!(
            value_at(headings, place, part),
            Err(CellFault::Malformed)
        ),
        PartFault::OverLimit => matches!(
            value_at(headings, place, part),
            Err(CellFault::OverLimit)
        ),
    }
}

// The first heading or cell that has the fault.
fn first_fault(fault: PartFault, headings: &[u8], text: &[u8]) -> Option<usize> {
    (0..parts_of(text)).find(|place| has_fault(fault, headings, text, *place))
}

fn say_heading<W: Write>(err: &mut W, text: &[u8], place: usize) {
    say(err, b", heading ");
    number_from_one(err, place);
    say(err, b" ");
    show(err, part_at(text, place));
}

fn say_part<W: Write>(err: &mut W, fault: PartFault, headings: &[u8], text: &[u8], place: usize) {
    match fault {
        PartFault::Blank | PartFault::Unknown | PartFault::Twice => say_heading(err, text, place),
        PartFault::Malformed | PartFault::OverLimit => say_cell(err, headings, text, place),
    }
}

fn say_malformed<W: Write>(err: &mut W, size: usize) {
    if size == 0 {
        say(err, b" is blank.\n");
        return;
    }
    say(err, b" is malformed.\n");
}

// The time is the first cell of a row, and the others are powers.
fn say_limit<W: Write>(err: &mut W, place: usize) {
    let _ = if place == 0 {
        write!(err, " is over its limit of {MOST_TIME} s.\n")
    } else {
        write!(err, " is over its limit of {MOST_KW} kW.\n")
    };
}

fn say_what<W: Write>(err: &mut W, fault: PartFault, size: usize, place: usize) {
    match fault {
        PartFault::Blank => say(err, b" is blank.\n"),
        PartFault::Unknown => say(err, b" is not a heading of this sheet.\n"),
        PartFault::Twice => say(err, b" is there a second time.\n"),
        PartFault::Malformed => say_malformed(err, size),
        PartFault::OverLimit => say_limit(err, place),
    }
}

// The line as it was found in the file, with the heading line, which is the line itself where a heading is wrong.
pub fn say_part_fault<W: Write>(
    err: &mut W,
    fault: PartFault,
    line: u64,
    headings: &[u8],
    text: &[u8],
) {
    let Some(place) = first_fault(fault, headings, text) else {
        return;
    };
    say_line(err, line);
    say_part(err, fault, headings, text, place);
    say_what(err, fault, part_at(text, place).len(), place);
}
