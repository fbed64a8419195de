// A number of a station file that was refused, with its range where it lies outside. Each message starts with the file.
use crate::rows::Body;
use station_fields::field::Field;
use std::fmt;
use std::io::Write;

// Whose number it is, at the start of a message.
impl fmt::Display for Body {
    fn fmt<W: fmt::Write>(&self, f: &mut fmt::Formatter<W>) -> fmt::Result {
        match self {
            Body::Control(_) => write!(f, "control: "),
            Body::Battery => write!(f, "battery: "),
            Body::Set => write!(f, "its "),
            Body::Pair(place) | Body::UnusedPair(place) => {
                let number = place.saturating_add(1);
                write!(f, "pair {number} of its fuel curve: ")
            }
        }
    }
}

// A number as the file has it: of which body, which of its rows, and its value.
#[derive(Clone, Copy)]
pub(crate) struct Found {
    pub(crate) body: Body,
    pub(crate) row: Field,
    pub(crate) value: u64,
}

impl Found {
    // Which number it is and what the file has there.
    pub(crate) fn say<W: Write>(&self, err: &mut W) {
        let body = self.body;
        let words = self.row.words;
        let value = self.value;
        let _ = write!(err, "check: station file, {body}{words} is {value}");
    }

    // Says of a number that is outside a range what it is and what would be right; of another, nothing.
    pub(crate) fn ask<W: Write>(&self, err: &mut W, least: u64, most: u64, more: &str) {
        if (least..=most).contains(&self.value) {
            return;
        }
        self.say(err);
        say_range(err, least, most, self.row.unit, more);
    }
}

// After the number that the file has: its unit with what else is to be known of it, and the range.
fn say_range<W: Write>(err: &mut W, least: u64, most: u64, unit: &str, more: &str) {
    let _ = write!(err, "{unit}{more}; right is {least}");
    if least < most {
        let _ = write!(err, " to {most}");
    }
    let _ = write!(err, "{unit}{more}.\n");
}

// The same of a number that has no row, by the words before it.
pub(crate) fn ask<W: Write>(
    err: &mut W,
    words: &str,
    value: u64,
    least: u64,
    most: u64,
    unit: &str,
) {
    if (least..=most).contains(&value) {
        return;
    }
    let _ = write!(err, "check: station file, {words} is {value}");
    say_range(err, least, most, unit, "");
}

// After a mask with a set that does not exist.
pub(crate) fn say_mask_rule<W: Write>(err: &mut W, setcount: usize) {
    let _ = write!(
        err,
        ", a mask with a set that does not exist; right is a mask of sets 1 to {setcount} alone, where bit 0 is set 1.\n",
    );
}
