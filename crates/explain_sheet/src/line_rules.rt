// What would be right, whatever the line has.
use plain_words::texts::say;
use rules::limits::{
    MOST_DECIMALS, MOST_KW_DIGITS, MOST_LINE, MOST_POWER, MOST_TIME, MOST_TIME_DIGITS,
};
use std::io::Write;

// The limit of a power in kW.
pub(crate) const MOST_KW: u32 = MOST_POWER / 1000;

// 11
pub fn say_length_rule<W: Write>(err: &mut W) {
    let _ = write!(
        err,
        "check: right is: a line of at most {MOST_LINE} bytes without its line feed (LF).\n",
    );
}

// 12 to 16
pub fn say_heading_rule<W: Write>(err: &mut W) {
    say(
        err,
        b"check: right is: the first line has the headings t first, then LoadP, PvAvailP and ShedLoadP once each in any order",
    );
    say(
        err,
        b", with a comma between them and no other heading, space or quote.\n",
    );
}

// 17
pub fn say_count_rule<W: Write>(err: &mut W) {
    say(
        err,
        b"check: right is: each row has 4 cells with a comma between them, one for each heading; an empty line is a row too.\n",
    );
}

// 18, 19
pub fn say_cell_rule<W: Write>(err: &mut W) {
    let _ = write!(
        err,
        "check: right is: a time is 1 to {MOST_TIME_DIGITS} digits, in seconds, at most {MOST_TIME}",
    );
    let _ = write!(
        err,
        "; a power is 1 to {MOST_KW_DIGITS} digits, and if need be a point and 1 to {MOST_DECIMALS} digits, in kW, at most {MOST_KW}",
    );
    say(err, b"; no cell may be blank.\n");
}

// 20
pub fn say_shed_rule<W: Write>(err: &mut W) {
    say(
        err,
        b"check: right is: the sheddable load (ShedLoadP) is a part of the load (LoadP), so at most as much.\n",
    );
}

// 21
pub fn say_first_time_rule<W: Write>(err: &mut W) {
    say(err, b"check: right is: the first row's time is 0.\n");
}

// 22
pub fn say_row_rule<W: Write>(err: &mut W) {
    say(
        err,
        b"check: right is: at least one row after the heading line, the first at the time 0.\n",
    );
}
