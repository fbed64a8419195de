#![tactic(auto)]
// measure_seconds each|many|rows STATION SECONDS: works the seconds of a station from its start with inputs that follow from the
// second's number, one call for each second or one for each batch, and says what they came to, or writes their rows. It is what
// bench/second measures.
mod inputs;
mod output;
mod row_bytes;
mod source;
mod work;

use crate::output::print_tally;
use crate::source::station_bytes;
use crate::work::{Tally, work_each, work_many};
use exchange::action::Action;
use exchange::event::Event;
use perform::{Files, perform};
use plain_words::numbers::number;
use plain_words::texts::say;
use records::start::start;
use rules::answers::Refusal;
use rules::limits::MOST_SECONDS;
use rules::run::Run;
use rules::station::Station;
use sheet::numbers::time;
use station::reader::read_station;
use std::env::Env;
use std::io::Write;
use words::refusals::NumberAndPlace;

// How the seconds are worked.
#[derive(Clone, Copy)]
enum Way {
    Each,
    Many,
    Rows,
}

// What the program is asked for.
#[derive(Clone, Copy)]
struct Asked {
    way: Way,
    seconds: u32,
}

fn say_usage<W: Write>(err: &mut W) {
    say(
        err,
        b"usage: measure_seconds each|many|rows STATION SECONDS (a number of 1 to 9 digits, at most 316224000)\n",
    );
}

fn way_of(word: &[u8]) -> Option<Way> {
    match word {
        b"each" => Some(Way::Each),
        b"many" => Some(Way::Many),
        b"rows" => Some(Way::Rows),
        _ => None,
    }
}

// An argument that is too long for the buffer reads as an empty one, which is no word and no number here.
fn way_asked(rt: &HostRuntime) -> Option<Way> {
    let mut word = [0u8; 4096];
    let end = rt.arg(1, &mut word).unwrap_or(0);
    way_of(&word[..end])
}

fn seconds_asked(rt: &HostRuntime) -> Option<u32> {
    let mut digits = [0u8; 4096];
    let end = rt.arg(3, &mut digits).unwrap_or(0);
    time(MOST_SECONDS, &digits[..end]).ok()
}

// Whether there are as many arguments as the program has, its own name counted.
fn is_called(rt: &HostRuntime) -> bool {
    let counted = perform(rt, &mut Files::new(), Action::Count, &mut [], &mut [], b"");
    matches!(counted, Event::Count(4))
}

fn what_is_asked(rt: &HostRuntime) -> Option<Asked> {
    if !is_called(rt) {
        return None;
    }
    Some(Asked {
        way: way_asked(rt)?,
        seconds: seconds_asked(rt)?,
    })
}

fn say_refusal<W: Write>(err: &mut W, refusal: Refusal) {
    let answer = NumberAndPlace::from(refusal);
    say(err, b" is refused with the number ");
    number(err, answer.number);
    say(err, b", place ");
    number(err, answer.place);
    say(err, b".\n");
}

// Where the rows were shown, standard output has nothing else.
fn report(rt: &HostRuntime, tally: Tally, shown: bool) {
    if let Err(refusal) = tally.verdict {
        let err = &mut rt.stderr();
        say(err, b"measure_seconds: second ");
        number(err, tally.seconds);
        say_refusal(err, refusal);
        return;
    }
    if !shown {
        print_tally(rt, tally);
    }
}

fn work_batches(rt: &HostRuntime, st: Station, run: Run, asked: u32, shown: bool) {
    let mut rows = [0u8; 65536];
    report(rt, work_many(rt, st, run, asked, shown, &mut rows), shown);
}

fn work_station(rt: &HostRuntime, asked: Asked, st: Station) {
    let run = start(st).run;
    match asked.way {
        Way::Each => report(rt, work_each(st, run, asked.seconds), false),
        Way::Many => work_batches(rt, st, run, asked.seconds, false),
        Way::Rows => work_batches(rt, st, run, asked.seconds, true),
    }
}

fn work_file(rt: &HostRuntime, asked: Asked, file: &[u8]) {
    match read_station(file) {
        Ok(st) => work_station(rt, asked, st),
        Err(refusal) => {
            let err = &mut rt.stderr();
            say(err, b"measure_seconds: the station file");
            say_refusal(err, refusal);
        }
    }
}

fn work_asked(rt: &HostRuntime, asked: Asked) {
    let mut file = [0u8; 4096];
    if let Some(size) = station_bytes(rt, &mut file) {
        work_file(rt, asked, &file[..size]);
    }
}

fn main(rt: HostRuntime) {
    match what_is_asked(&rt) {
        Some(asked) => work_asked(&rt, asked),
        None => say_usage(&mut rt.stderr()),
    }
}
