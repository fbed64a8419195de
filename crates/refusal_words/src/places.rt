// Where the fault of a refusal stands: of which file or argument it is, and what its place counts from 1.
ghost use Rattle.std.specs.Prelude.{◌≡◌};
ghost use Rattle.refusal_words.specs.Places.{place_of, line_or, configuration_or_call};

use rules::answers::Refusal;
use std::io::Write;

#[derive(Clone, Copy)]
pub enum Place {
    // the station file, and nothing of it that is counted
    StationFile,
    // an entry of its table of contents
    Entry(u32),
    Set(u32),
    Configuration(u32),
    // the sample file, and no line of it
    SampleFile,
    Line(u64),
    // the argument SECONDS
    Seconds,
    // what a call was handed: numbers, a record, a buffer
    Call,
}

// Lines are counted from 1, so that 0 is another place.
fn line_or(line: u64, without: Place) -> Place
    ensures { result ≡ line_or line without }
{
    if line == 0 {
        return without;
    }
    Place::Line(line)
}

// "8 for such a mask wrong", of the mask that a call was handed, has the place 0.
fn configuration_or_call(configuration: u32) -> Place
    ensures { result ≡ configuration_or_call configuration }
{
    if configuration == 0 {
        return Place::Call;
    }
    Place::Configuration(configuration)
}

// The seconds asked are no line of a file: 23 is theirs alone, and so is 18 without a line.
pub fn place_of(refusal: Refusal) -> Place
    ensures { result ≡ place_of refusal }
{
    match refusal {
        Refusal::StationSize => Place::StationFile,
        Refusal::ContentsEntry(entry) => Place::Entry(entry),
        Refusal::ContentsSize => Place::StationFile,
        Refusal::ControlValue => Place::StationFile,
        Refusal::BatteryValue => Place::StationFile,
        Refusal::SetNumber(set) => Place::Set(set),
        Refusal::SetPairs(set) => Place::Set(set),
        Refusal::ConfigurationMask(configuration) => configuration_or_call(configuration),
        Refusal::LineLength(line) => Place::Line(line),
        Refusal::HeadingBlank(line) => Place::Line(line),
        Refusal::HeadingUnknown(line) => Place::Line(line),
        Refusal::HeadingTwice(line) => Place::Line(line),
        Refusal::HeadingMissing(line) => Place::Line(line),
        Refusal::FirstHeading(line) => Place::Line(line),
        Refusal::CellCount(line) => Place::Line(line),
        Refusal::Malformed(line) => line_or(line, Place::Seconds),
        Refusal::OverLimit(line) => line_or(line, Place::Call),
        Refusal::SheddableAboveLoad(line) => line_or(line, Place::Call),
        Refusal::FirstTime(line) => Place::Line(line),
        Refusal::NoRow => Place::SampleFile,
        Refusal::RunEnded => Place::Seconds,
        Refusal::RunRecord => Place::Call,
        Refusal::StationRecord => Place::Call,
        Refusal::RowBuffer => Place::Call,
    }
}

// Of which file or argument it is.
pub(crate) fn subject_of(place: Place) -> &'static str {
    match place {
        Place::StationFile | Place::Entry(_) | Place::Set(_) | Place::Configuration(_) => {
            "the station file"
        }
        Place::SampleFile | Place::Line(_) => "the sample file",
        Place::Seconds => "SECONDS",
        Place::Call => "a call",
    }
}

// What the place counts, after a comma; nothing where it counts nothing.
pub fn say_place<W: Write>(err: &mut W, place: Place) {
    let _ = match place {
        Place::StationFile | Place::SampleFile | Place::Seconds | Place::Call => Ok(()),
        Place::Entry(entry) => write!(err, ", entry {entry}"),
        Place::Set(set) => write!(err, ", set {set}"),
        Place::Configuration(configuration) => write!(err, ", configuration {configuration}"),
        Place::Line(line) => write!(err, ", line {line}"),
    };
}
