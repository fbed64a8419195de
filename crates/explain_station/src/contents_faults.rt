// Refusals 1, 2 and 3 for a clerk: the size of a station file, and its table of contents.
use crate::numbers::{configcount_of, configurations_at, from_place, from_zero, number_at};
use crate::ranges::ask;
use station_fields::layout::{
    BATTERY_AT, CONFIGURATIONS_PART, CONTROL_AT, COUNTS, ENTRY_COUNT, ENTRY_OFFSET, ENTRY_SIZE,
    KINDS, PARTS, Part, SET_SIZE, SETS_AT, SETS_PART,
};
use std::io::Write;

// "a file has 165 to 676 bytes": the fewest and the most sets and configurations, after the other bodies
const LEAST_SIZE: u64 = SETS_AT as u64
    + SET_SIZE as u64 * SETS_PART.least
    + CONFIGURATIONS_PART.least;

const MOST_SIZE: u64 = SETS_AT as u64 + SET_SIZE as u64 * SETS_PART.most + CONFIGURATIONS_PART.most;

const MOST_CONFIGURATIONS: u64 = CONFIGURATIONS_PART.most;

// No more than this is counted of a station file's bytes.
const MOST_COUNTED: usize = 4096;

// 1. Of a file that is too long only its size is known, since its bytes are not held.
pub fn say_size<W: Write>(err: &mut W, size: usize) {
    let unit = if MOST_COUNTED <= size {
        " bytes or more"
    } else {
        " bytes"
    };
    ask(
        err,
        "its size",
        size.min(MOST_COUNTED) as u64,
        LEAST_SIZE,
        MOST_SIZE,
        unit,
    );
}

// The part at a place of the contents, from 0.
fn part_at(place: usize) -> Part {
    let parts = PARTS;
    parts[place % parts.len()]
}

// Where the part at a place starts; the configurations come last.
fn body_at(file: &[u8], place: usize) -> usize {
    match place {
        0 => CONTROL_AT,
        1 => BATTERY_AT,
        2 => SETS_AT,
        _ => configurations_at(file),
    }
}

// An entry of the table of contents: its kind, its count and its offset.
fn ask_entry<W: Write>(err: &mut W, entry: &[u8], part: Part, offset: u64) {
    ask(
        err,
        "kind of that entry",
        number_at(entry, 0, ENTRY_COUNT),
        part.kind,
        part.kind,
        KINDS,
    );
    ask(
        err,
        "count of that entry",
        number_at(entry, ENTRY_COUNT, ENTRY_OFFSET - ENTRY_COUNT),
        part.least,
        part.most,
        COUNTS,
    );
    ask(
        err,
        "offset of that entry",
        number_at(entry, ENTRY_OFFSET, ENTRY_SIZE - ENTRY_OFFSET),
        offset,
        offset,
        " (the bodies follow without gaps)",
    );
}

// 2
pub fn say_entry<W: Write>(err: &mut W, file: &[u8], entry: u32) {
    let _ = write!(
        err,
        "check: station file, entry {entry} of the table of contents is wrong.\n",
    );
    let place = from_zero(entry);
    ask_entry(
        err,
        from_place(file, ENTRY_SIZE * place),
        part_at(place),
        body_at(file, place) as u64,
    );
}

// 3
pub fn say_contents_size<W: Write>(err: &mut W, file: &[u8]) {
    let configcount = configcount_of(file);
    if MOST_CONFIGURATIONS < configcount {
        return;
    }
    let size = configurations_at(file) as u64 + configcount;
    ask(
        err,
        "its size",
        file.len() as u64,
        size,
        size,
        " bytes, by its table of contents",
    );
}
