// The station as it was read, so that the clerk sees what is about to be run.
ghost use Rattle.std.specs.Prelude.{◌≤◌};

use crate::numbers::{configcount_of, from_place, mask_at, number_of, set_at, setcount_of};
use crate::rows::{Body, rows_of};
use plain_words::numbers::{count_of, number_from_one};
use plain_words::texts::say;
use station_fields::control::{MAINTAIN, ON_LINE};
use station_fields::field::Field;
use station_fields::genset::{PAIR_LOAD, PAIR_RATE, POINTS, SERVICE_INTERVAL, SERVICE_TIME};
use station_fields::layout::{BATTERY_AT, CONTROL_AT, PAIR_SIZE, PAIRS, PAIRS_OFFSET};
use std::io::Write;
use words::masks::next_set;

// The rows that are not told by their words, value and unit alone.
const MAINTAIN_AT: usize = MAINTAIN.offset;

const ON_LINE_AT: usize = ON_LINE.offset;

const INTERVAL_AT: usize = SERVICE_INTERVAL.offset;

const SERVICE_TIME_AT: usize = SERVICE_TIME.offset;

const POINTS_AT: usize = POINTS.offset;

// The bits of a mask that are sets.
const PLACES: u32 = 8;

// The numbers of a mask's sets, at the end of a line.
fn say_sets_of<W: Write>(err: &mut W, mask: u64) {
    if mask == 0 {
        say(err, b" none\n");
        return;
    }
    let sets = (mask % 256) as u32;
    for place in 0..PLACES {
        if next_set(sets, place) == place {
            let _ = write!(err, " {}", place + 1);
        }
    }
    say(err, b"\n");
}

// A number with its unit, and what comes after it.
fn say_amount<W: Write>(err: &mut W, row: Field, value: u64, after: &str) {
    let unit = row.unit;
    let _ = write!(err, "{value}{unit}{after}");
}

// A line such as `  warm-up: 2 s`.
fn say_line<W: Write>(err: &mut W, row: Field, value: u64, after: &str) {
    let words = row.words;
    let _ = write!(err, "  {words}: ");
    say_amount(err, row, value, after);
}

fn say_maintain<W: Write>(err: &mut W, row: Field, maintain: u64) {
    let after = if maintain == 1 {
        ", so that the spinning reserve is kept whatever load could be shed\n"
    } else {
        ", so that load that could be shed counts towards the reserve\n"
    };
    say_line(err, row, maintain, after);
}

fn say_on_line<W: Write>(err: &mut W, row: Field, mask: u64) {
    let words = row.words;
    let _ = write!(err, "  {words}, by number:");
    say_sets_of(err, mask);
}

fn say_of_control<W: Write>(err: &mut W, row: Field, value: u64) {
    match row.offset {
        MAINTAIN_AT => say_maintain(err, row, value),
        ON_LINE_AT => say_on_line(err, row, value),
        _ => say_line(err, row, value, "\n"),
    }
}

// The interval begins the line that the time ends.
fn say_interval<W: Write>(err: &mut W, row: Field, interval: u64) {
    if interval == 0 {
        say(err, b"  service: never\n");
        return;
    }
    say(err, b"  service: after ");
    say_amount(err, row, interval, ", for ");
}

// The time is 0 where the interval is.
fn say_time<W: Write>(err: &mut W, row: Field, time: u64) {
    if 0 < time {
        say_amount(err, row, time, "\n");
    }
}

// A point of the fuel curve: its load and its rate.
fn say_point<W: Write>(err: &mut W, bytes: &[u8]) {
    say(err, b"  fuel at ");
    say_amount(err, PAIR_LOAD, number_of(bytes, PAIR_LOAD), ": ");
    say_amount(err, PAIR_RATE, number_of(bytes, PAIR_RATE), "\n");
}

// The points in use.
fn say_curve<W: Write>(err: &mut W, set: &[u8], points: u64) {
    for place in 0..points.min(PAIRS as u64) as usize {
        say_point(err, from_place(set, PAIRS_OFFSET + PAIR_SIZE * place));
    }
}

fn say_of_set<W: Write>(err: &mut W, bytes: &[u8], row: Field, value: u64) {
    match row.offset {
        INTERVAL_AT => say_interval(err, row, value),
        SERVICE_TIME_AT => say_time(err, row, value),
        POINTS_AT => say_curve(err, bytes, value),
        _ => say_line(err, row, value, "\n"),
    }
}

fn say_number<W: Write>(err: &mut W, bytes: &[u8], body: Body, row: Field) {
    let value = number_of(bytes, row);
    match body {
        Body::Control(_) => say_of_control(err, row, value),
        Body::Set => say_of_set(err, bytes, row, value),
        Body::Battery | Body::Pair(_) | Body::UnusedPair(_) => say_line(err, row, value, "\n"),
    }
}

// The numbers of the body that the bytes start with.
fn say_rows<W: Write>(err: &mut W, bytes: &[u8], body: Body) {
    for row in rows_of(body) {
        say_number(err, bytes, body, *row);
    }
}

fn say_set<W: Write>(err: &mut W, file: &[u8], place: usize)
    requires { place ≤ 8 }
{
    let _ = write!(err, "Set {}\n", place + 1);
    say_rows(err, set_at(file, place), Body::Set);
}

fn say_configuration<W: Write>(err: &mut W, file: &[u8], place: usize) {
    say(err, b"Configuration ");
    number_from_one(err, place);
    say(err, b", sets by number:");
    say_sets_of(err, mask_at(file, place));
}

fn say_counts<W: Write>(err: &mut W, setcount: usize, configcount: u64) {
    say(err, b"Station: ");
    count_of(err, setcount as u64, b"set");
    say(err, b", ");
    count_of(err, configcount, b"configuration");
    say(err, b"\n");
}

// The station of a file that is in order.
pub fn say_station<W: Write>(err: &mut W, file: &[u8]) {
    let setcount = setcount_of(file);
    let configcount = configcount_of(file);
    say_counts(err, setcount, configcount);
    say(err, b"Control\n");
    say_rows(err, from_place(file, CONTROL_AT), Body::Control(setcount));
    say(err, b"Battery\n");
    say_rows(err, from_place(file, BATTERY_AT), Body::Battery);
    for place in 0..setcount {
        say_set(err, file, place);
    }
    for place in 0..configcount as usize {
        say_configuration(err, file, place);
    }
}
