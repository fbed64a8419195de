// Refusals 11, 15, 16, 17, 20 and 21 for a clerk: what is wrong with a line as a whole, or with two of its cells.
use crate::columns::{column_of, part_at, parts_of};
use plain_words::numbers::{count_of, number_from_one};
use plain_words::shown::{show, show_bare};
use plain_words::texts::say;
use std::io::Write;

// A column after the time's, by its place among the names `t`, LoadP, PvAvailP, ShedLoadP.
#[derive(Clone, Copy)]
enum Column {
    Load = 1,
    Solar = 2,
    Sheddable = 3,
}

fn heading_of(column: Column) -> &'static str {
    match column {
        Column::Load => "LoadP",
        Column::Solar => "PvAvailP",
        Column::Sheddable => "ShedLoadP",
    }
}

// `check: sample file, line 3` starts each message.
pub(crate) fn say_line<W: Write>(err: &mut W, line: u64) {
    let _ = write!(err, "check: sample file, line {line}");
}

// A cell with its number from 1, its text and its heading.
pub(crate) fn say_cell<W: Write>(err: &mut W, headings: &[u8], text: &[u8], place: usize) {
    say(err, b", cell ");
    number_from_one(err, place);
    say(err, b" ");
    show(err, part_at(text, place));
    say(err, b" (");
    show_bare(err, part_at(headings, place));
    say(err, b")");
}

// 11
pub fn say_long<W: Write>(err: &mut W, line: u64, text: &[u8]) {
    say_line(err, line);
    say(err, b" is too long. It begins ");
    show(err, text);
    say(err, b".\n");
}

fn say_if_missing<W: Write>(err: &mut W, line: u64, headings: &[u8], column: Column) {
    if column_of(headings, column as u8).is_some() {
        return;
    }
    say_line(err, line);
    say(err, b", headings ");
    show(err, headings);
    let heading = heading_of(column);
    let _ = write!(err, ": {heading} is missing.\n");
}

// 15
pub fn say_missing<W: Write>(err: &mut W, line: u64, headings: &[u8]) {
    for column in [Column::Load, Column::Solar, Column::Sheddable] {
        say_if_missing(err, line, headings, column);
    }
}

// 16
pub fn say_first_heading<W: Write>(err: &mut W, line: u64, headings: &[u8]) {
    say_line(err, line);
    if headings.is_empty() {
        say(err, b" is empty, so heading 1 '' is not t.\n");
        return;
    }
    say(err, b", heading 1 ");
    show(err, part_at(headings, 0));
    say(err, b" is not t.\n");
}

// 17
pub fn say_count<W: Write>(err: &mut W, line: u64, text: &[u8]) {
    say_line(err, line);
    say(err, b" ");
    show(err, text);
    say(err, b" has ");
    count_of(err, parts_of(text) as u64, b"cell");
    say(err, b".\n");
}

// 20
pub fn say_shed<W: Write>(err: &mut W, line: u64, headings: &[u8], text: &[u8]) {
    let Some(sheddable) = column_of(headings, Column::Sheddable as u8) else {
        return;
    };
    let Some(load) = column_of(headings, Column::Load as u8) else {
        return;
    };
    say_line(err, line);
    say_cell(err, headings, text, sheddable);
    say(err, b" is above the load");
    say_cell(err, headings, text, load);
    say(err, b".\n");
}

// 21
pub fn say_first_time<W: Write>(err: &mut W, line: u64, text: &[u8]) {
    say_line(err, line);
    say(err, b", cell 1 ");
    show(err, part_at(text, 0));
    say(err, b" (t) is not 0, and this is the first row.\n");
}

// Where the file cannot be read a second time, as a pipe cannot.
pub fn say_unseen<W: Write>(err: &mut W, line: u64) {
    say_line(err, line);
    say(
        err,
        b" is wrong; its text cannot be shown, since the file could not be read a second time.\n",
    );
}
