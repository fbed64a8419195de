// What the clerk is told once the answer is on standard output: what stands in the files, or what is wrong and what would be right.
use check_machine::line_search::Sought;
use check_machine::state::{Held, Machine};
use exchange::action::Word;
use explain::faults::say_fault;
use explain::rights::say_right;
use explain_sheet::line_faults::say_unseen;
use explain_station::as_read::say_station;
use files::source::Program;
use files::why::say_why;
use perform::turns::Ended;
use plain_words::numbers::{count_of, number};
use plain_words::texts::say;
use refusal_words::places::{Place, place_of};
use refusal_words::refused::say_refused;
use refusal_words::titles::say_title;
use rules::answers::Refusal;
use samples::check::{Span, finish};
use station::chunks::StationBytes;
use std::io::Write;

fn say_span<W: Write>(err: &mut W, span: Span) {
    say(err, b"Samples: ");
    count_of(err, span.rows, b"row");
    say(err, b", from second 0 to second ");
    number(err, span.last as u64);
    say(err, b"; the last holds until the end\n");
}

// The bytes of a station file that are held.
fn bytes_of(file: &StationBytes) -> Option<&[u8]> {
    file.bytes.get(..file.len)
}

fn accept<W: Write>(err: &mut W, held: Held) {
    let read = held.judging.held;
    say(err, b"check: both files are in order.\n");
    if let Some(file) = bytes_of(&read.file) {
        say_station(err, file);
    }
    if let Ok(span) = finish(read.check) {
        say_span(err, span);
    }
}

fn refuse_station<W: Write>(err: &mut W, refusal: Refusal, held: Held) {
    let read = held.judging.held;
    if let Some(file) = bytes_of(&read.file) {
        say_fault(err, refusal, file, read.size, b"", b"");
    }
    say(err, b"check: the sample file was not looked at.\n");
}

// The line itself, and the heading line for the names of its cells; neither is there where the file cannot be read again, as a pipe
// cannot.
fn refuse_line<W: Write>(err: &mut W, refusal: Refusal, line: u64, held: Held) {
    match (held.heading, held.line) {
        (Sought::Found(heading), Sought::Found(refused)) => {
            say_fault(err, refusal, b"", 0, heading.bytes(), refused.bytes())
        }
        _ => say_unseen(err, line),
    }
}

fn say_which<W: Write>(err: &mut W, refusal: Refusal, place: Place) {
    say(err, b"check: ");
    say_refused(err, refusal, place);
    say(err, b": ");
    say_title(err, refusal);
    say(err, b".\n");
}

fn refuse<W: Write>(err: &mut W, refusal: Refusal, held: Held) {
    let place = place_of(refusal);
    say_which(err, refusal, place);
    match place {
        Place::StationFile | Place::Entry(_) | Place::Set(_) | Place::Configuration(_) => {
            refuse_station(err, refusal, held)
        }
        Place::Line(line) => refuse_line(err, refusal, line, held),
        Place::SampleFile | Place::Seconds | Place::Call => {}
    }
    say_right(err, refusal);
}

pub(crate) fn say_end<W: Write>(err: &mut W, ended: Ended<Machine>, paths: &[u8]) {
    let held = ended.state.held;
    match ended.word {
        Word::Complete => accept(err, held),
        Word::Refused(refusal) => refuse(err, refusal, held),
        Word::Nothing(why) => say_why(err, Program::Check, why, &ended.files, paths),
    }
}
