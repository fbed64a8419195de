// What would be right, whatever the files have.
use explain_sheet::line_rules::{
    say_cell_rule, say_count_rule, say_first_time_rule, say_heading_rule, say_length_rule,
    say_row_rule, say_shed_rule,
};
use rules::answers::Refusal;
use std::io::Write;

// A station's right numbers are told with the wrong ones, and nothing of a file would be right for a call's own.
pub fn say_right<W: Write>(err: &mut W, refusal: Refusal) {
    match refusal {
        Refusal::StationSize | Refusal::ContentsEntry(_) | Refusal::ContentsSize => {}
        Refusal::ControlValue | Refusal::BatteryValue => {}
        Refusal::SetNumber(_) | Refusal::SetPairs(_) | Refusal::ConfigurationMask(_) => {}
        Refusal::LineLength(_) => say_length_rule(err),
        Refusal::HeadingBlank(_) | Refusal::HeadingUnknown(_) => say_heading_rule(err),
        Refusal::HeadingTwice(_) | Refusal::HeadingMissing(_) => say_heading_rule(err),
        Refusal::FirstHeading(_) => say_heading_rule(err),
        Refusal::CellCount(_) => say_count_rule(err),
        Refusal::Malformed(_) | Refusal::OverLimit(_) => say_cell_rule(err),
        Refusal::SheddableAboveLoad(_) => say_shed_rule(err),
        Refusal::FirstTime(_) => say_first_time_rule(err),
        Refusal::NoRow => say_row_rule(err),
        Refusal::RunEnded | Refusal::RunRecord => {}
        Refusal::StationRecord | Refusal::RowBuffer => {}
    }
}
