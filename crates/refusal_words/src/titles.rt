// What each refusal stands for, as the paper's table has it.
use plain_words::texts::say;
use rules::answers::Refusal;
use std::io::Write;

fn title_of(refusal: Refusal) -> &'static str {
    match refusal {
        Refusal::StationSize => "its size is outside 165 to 676 bytes",
        Refusal::ContentsEntry(_) => "a kind, count or offset of its contents is wrong",
        Refusal::ContentsSize => "its size differs from the contents",
        Refusal::ControlValue => "a control value is outside its rule",
        Refusal::BatteryValue => "a battery value is outside its rule",
        Refusal::SetNumber(_) => "a set's number before its pairs is outside its rule",
        Refusal::SetPairs(_) => "a set's pairs are outside their rule",
        Refusal::ConfigurationMask(_) => "a configuration is outside its rule",
        Refusal::LineLength(_) => "a line is too long",
        Refusal::HeadingBlank(_) => "a heading is blank",
        Refusal::HeadingUnknown(_) => "a heading is unknown",
        Refusal::HeadingTwice(_) => "a heading is given twice",
        Refusal::HeadingMissing(_) => "a heading is missing",
        Refusal::FirstHeading(_) => "the first heading is not t",
        Refusal::CellCount(_) => "a row's cell count differs from the headings",
        // "Seconds asked are 1 to 9 digits, else 18", with the place 0
        Refusal::Malformed(0) => "it has to be 1 to 9 digits and nothing else",
        Refusal::Malformed(_) => "a cell is malformed",
        Refusal::OverLimit(_) => "a value is over its limit",
        Refusal::SheddableAboveLoad(_) => "the sheddable load is above the load",
        Refusal::FirstTime(_) => "the first row's time is not 0",
        Refusal::NoRow => "it has no row",
        Refusal::RunEnded => "a run has at most 316224000 seconds",
        Refusal::RunRecord => "the run's record is impossible",
        Refusal::StationRecord => "the station's record is one that no file gives",
        Refusal::RowBuffer => "the row buffer has under 256 bytes",
    }
}

pub fn say_title<W: Write>(err: &mut W, refusal: Refusal) {
    say(err, title_of(refusal).as_bytes());
}
