// Refusals 4 to 8 for a clerk: which number of a body of the station file is wrong, what the file has and what would be right.
ghost use Rattle.std.specs.Prelude.{◌≤◌};

use crate::numbers::{from_place, from_zero, mask_at, number_at, number_of, set_at, setcount_of};
use crate::ranges::{Found, say_mask_rule};
use crate::row_faults::ask_rows;
use crate::rows::Body;
use plain_words::texts::say;
use station_fields::genset::{PAIR_LOAD, POINTS};
use station_fields::layout::{BATTERY_AT, CONTROL_AT, PAIR_SIZE, PAIRS, PAIRS_OFFSET};
use std::io::Write;

const POINTS_AT: usize = POINTS.offset;

const POINTS_WIDTH: usize = POINTS.width;

// 4
pub fn say_control<W: Write>(err: &mut W, file: &[u8]) {
    ask_rows(
        err,
        from_place(file, CONTROL_AT),
        Body::Control(setcount_of(file)),
    );
}

// 5
pub fn say_battery<W: Write>(err: &mut W, file: &[u8]) {
    ask_rows(err, from_place(file, BATTERY_AT), Body::Battery);
}

fn say_wrong<W: Write>(err: &mut W, what: &str, count: u32) {
    let _ = write!(err, "check: station file, {what} {count} is wrong.\n");
}

// 6
pub fn say_set_numbers<W: Write>(err: &mut W, file: &[u8], set: u32) {
    say_wrong(err, "set", set);
    ask_rows(err, set_at(file, from_zero(set)), Body::Set);
}

// "Loads rise strictly."
fn ask_rise<W: Write>(err: &mut W, bytes: &[u8], before: u64, place: usize) {
    let row = PAIR_LOAD;
    let load = number_of(bytes, row);
    if before < load {
        return;
    }
    let found = Found {
        body: Body::Pair(place),
        row,
        value: load,
    };
    found.say(err);
    let unit = row.unit;
    let _ = write!(
        err,
        "{unit}; right is a load above that of the pair before it, {before}.\n",
    );
}

// The set's pair at a place from 0.
fn ask_pair<W: Write>(err: &mut W, set: &[u8], points: u64, place: usize)
    requires { place ≤ 5 }
{
    let at = PAIRS_OFFSET + PAIR_SIZE * place;
    let bytes = from_place(set, at);
    if points <= place as u64 {
        ask_rows(err, bytes, Body::UnusedPair(place));
        return;
    }
    ask_rows(err, bytes, Body::Pair(place));
    if 0 < place {
        ask_rise(
            err,
            bytes,
            number_of(from_place(set, at - PAIR_SIZE), PAIR_LOAD),
            place,
        );
    }
}

// 7
pub fn say_set_pairs<W: Write>(err: &mut W, file: &[u8], set: u32) {
    let body = set_at(file, from_zero(set));
    let points = number_at(body, POINTS_AT, POINTS_WIDTH);
    say_wrong(err, "set", set);
    for place in 0..PAIRS {
        ask_pair(err, body, points, place);
    }
}

fn say_mask_fault<W: Write>(err: &mut W, mask: u64, setcount: usize) {
    let _ = write!(err, "check: station file, its mask is {mask}");
    if mask == 0 {
        say(
            err,
            b" and so calls no set; right is a mask with at least one set that exists.\n",
        );
        return;
    }
    say_mask_rule(err, setcount);
}

// 8
pub fn say_configuration<W: Write>(err: &mut W, file: &[u8], configuration: u32) {
    say_wrong(err, "configuration", configuration);
    say_mask_fault(
        err,
        mask_at(file, from_zero(configuration)),
        setcount_of(file),
    );
}
