// Numbers, and things that are counted.
use crate::texts::say;
use std::io::Write;

pub fn number<W: Write>(err: &mut W, value: u64) {
    let _ = write!(err, "{value}");
}

// A place that the code counts from 0, as the paper and the clerk count it.
pub fn number_from_one<W: Write>(err: &mut W, place: usize) {
    if place < usize::MAX {
        number(err, place as u64 + 1);
    }
}

// Such as `1 row` and `2 rows`.
pub fn count_of<W: Write>(err: &mut W, count: u64, one: &[u8]) {
    number(err, count);
    say(err, b" ");
    say(err, one);
    if count != 1 {
        say(err, b"s");
    }
}
