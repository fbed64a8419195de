// The rows of a body one after the other: each number that is outside its row's range, or against a rule over several numbers.
use crate::numbers::number_of;
use crate::ranges::{Found, say_mask_rule};
use crate::rows::{Body, rows_of};
use plain_words::texts::say;
use station_fields::battery::{LEAST_CONTENT, MOST_CONTENT, START_CONTENT};
use station_fields::control::{FILTER_K, MINIMUM_SECONDS, ON_LINE};
use station_fields::field::Field;
use station_fields::genset::{SERVICE_INTERVAL, SERVICE_TIME};
use std::io::Write;
use words::masks::existing_only;

// The rows that a rule over several numbers is asked of, and the numbers that it asks beside them.
const ON_LINE_AT: usize = ON_LINE.offset;

const START_CONTENT_AT: usize = START_CONTENT.offset;

const LEAST_CONTENT_AT: usize = LEAST_CONTENT.offset;

const SERVICE_TIME_AT: usize = SERVICE_TIME.offset;

// The places of two of the control's rows.
const FILTER_K_PLACE: usize = FILTER_K.offset / FILTER_K.width;

const MINIMUM_SECONDS_PLACE: usize = MINIMUM_SECONDS.offset / MINIMUM_SECONDS.width;

// What is wrong with a number by its own range.
fn ask_range<W: Write>(err: &mut W, found: Found) {
    let row = found.row;
    found.ask(err, row.least, row.most, "");
}

// "mask of sets on line at the start (bit 0 is set 1, existing sets only)"
fn ask_online<W: Write>(err: &mut W, setcount: usize, found: Found) {
    if existing_only(setcount, found.value) {
        return;
    }
    found.say(err);
    say_mask_rule(err, setcount);
}

fn ask_control<W: Write>(err: &mut W, setcount: usize, found: Found) {
    match found.row.offset {
        ON_LINE_AT => ask_online(err, setcount, found),
        _ => ask_range(err, found),
    }
}

// "least <= start <= most": what is wrong with the least content is told of the content at the start.
fn ask_start<W: Write>(err: &mut W, bytes: &[u8], start: Found) {
    let least = number_of(bytes, LEAST_CONTENT);
    let most = number_of(bytes, MOST_CONTENT);
    start.ask(err, least, u64::MAX, ", not below the least content");
    start.ask(err, 0, most, ", not above the most content");
}

fn ask_battery<W: Write>(err: &mut W, bytes: &[u8], found: Found) {
    match found.row.offset {
        START_CONTENT_AT => ask_start(err, bytes, found),
        LEAST_CONTENT_AT => {}
        _ => ask_range(err, found),
    }
}

// "service time s 1 to 2,592,000, but 0 where the interval is 0"
fn ask_service<W: Write>(err: &mut W, bytes: &[u8], service: Found) {
    if number_of(bytes, SERVICE_INTERVAL) == 0 {
        service.ask(err, 0, 0, ", since its service interval is 0 (never)");
        return;
    }
    service.ask(err, 1, service.row.most, "");
}

fn ask_set<W: Write>(err: &mut W, bytes: &[u8], found: Found) {
    match found.row.offset {
        SERVICE_TIME_AT => ask_service(err, bytes, found),
        _ => ask_range(err, found),
    }
}

// "Unused pairs are zero."
fn ask_unused<W: Write>(err: &mut W, found: Found) {
    if found.value == 0 {
        return;
    }
    found.say(err);
    say(err, b"; right is 0, since the set has fewer points.\n");
}

fn ask_number<W: Write>(err: &mut W, bytes: &[u8], body: Body, row: Field) {
    let value = number_of(bytes, row);
    let found = Found { body, row, value };
    match body {
        Body::Control(setcount) => ask_control(err, setcount, found),
        Body::Battery => ask_battery(err, bytes, found),
        Body::Set => ask_set(err, bytes, found),
        Body::Pair(_) => ask_range(err, found),
        Body::UnusedPair(_) => ask_unused(err, found),
    }
}

// The seconds are told one after the other, so the minimum seconds before filter k.
fn told_of_control(place: usize) -> usize {
    match place {
        FILTER_K_PLACE => MINIMUM_SECONDS_PLACE,
        MINIMUM_SECONDS_PLACE => FILTER_K_PLACE,
        _ => place,
    }
}

// The row that is told at a place.
fn told_place(body: Body, place: usize) -> usize {
    match body {
        Body::Control(_) => told_of_control(place),
        Body::Battery | Body::Set | Body::Pair(_) | Body::UnusedPair(_) => place,
    }
}

// What is wrong in the body that the bytes start with.
pub(crate) fn ask_rows<W: Write>(err: &mut W, bytes: &[u8], body: Body) {
    let rows = rows_of(body);
    for place in 0..rows.len() {
        if let Some(row) = rows.get(told_place(body, place)) {
            ask_number(err, bytes, body, *row);
        }
    }
}
