// What is wrong at a refusal's place.
use explain_sheet::line_faults::{
    say_count, say_first_heading, say_first_time, say_long, say_missing, say_shed,
};
use explain_sheet::part_faults::{PartFault, say_part_fault};
use explain_station::body_faults::{
    say_battery, say_configuration, say_control, say_set_numbers, say_set_pairs,
};
use explain_station::contents_faults::{say_contents_size, say_entry, say_size};
use rules::answers::Refusal;
use std::io::Write;

// The station file as far as it is held, with its size; and of the sample file the heading line and the refused line as they were found.
pub fn say_fault<W: Write>(
    err: &mut W,
    refusal: Refusal,
    station: &[u8],
    size: usize,
    headings: &[u8],
    text: &[u8],
) {
    match refusal {
        Refusal::StationSize => say_size(err, size),
        Refusal::ContentsEntry(entry) => say_entry(err, station, entry),
        Refusal::ContentsSize => say_contents_size(err, station),
        Refusal::ControlValue => say_control(err, station),
        Refusal::BatteryValue => say_battery(err, station),
        Refusal::SetNumber(set) => say_set_numbers(err, station, set),
        Refusal::SetPairs(set) => say_set_pairs(err, station, set),
        Refusal::ConfigurationMask(configuration) => say_configuration(err, station, configuration),
        Refusal::LineLength(line) => say_long(err, line, text),
        Refusal::HeadingBlank(line) => say_part_fault(err, PartFault::Blank, line, headings, text),
        Refusal::HeadingUnknown(line) => say_part_fault(
            err,
            PartFault::Unknown,
            line,
            headings,
            text,
        ),
        Refusal::HeadingTwice(line) => say_part_fault(err, PartFault::Twice, line, headings, text),
        Refusal::HeadingMissing(line) => say_missing(err, line, headings),
        Refusal::FirstHeading(line) => say_first_heading(err, line, headings),
        Refusal::CellCount(line) => say_count(err, line, text),
        Refusal::Malformed(line) => say_part_fault(err, PartFault::Malformed, line, headings, text),
        Refusal::OverLimit(line) => say_part_fault(err, PartFault::OverLimit, line, headings, text),
        Refusal::SheddableAboveLoad(line) => say_shed(err, line, headings, text),
        Refusal::FirstTime(line) => say_first_time(err, line, text),
        Refusal::NoRow | Refusal::RunEnded => {}
        Refusal::RunRecord | Refusal::StationRecord | Refusal::RowBuffer => {}
    }
}
