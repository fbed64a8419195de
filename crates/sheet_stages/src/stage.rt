// One line after another: what the lines so far came to, and the row that a line gives.
ghost use Rattle.std.specs.Prelude.{◌≡◌, suc, min, ◌<◌, List, [], ◌∷◌};
ghost use Rattle.rules.specs.Answers.{result_of};
ghost use Rattle.rules.specs.Lines.{Line};
ghost use Rattle.rules.specs.SampleFile.{sample_sheet, heading_line};
ghost use Rattle.sheet_headings.specs.Headings.{headed_of};
ghost use Rattle.sheet.specs.Rows.{row_in};
ghost use Rattle.sheet_stages.specs.ToCome.{most_place, to_come, row_first, end_of, is_refused};
ghost use Rattle.sheet_stages.specs.Stages.{waiting, after_later};

use rules::answers::Refusal;
use rules::samples::Sample;
use sheet::rows::read_row;
use sheet_headings::headings::{Columns, heading_line};

// The heading line is awaited; the first row; a later row, with the columns, the time of the last accepted row, and how many
// lines there were; or a line was refused.
#[derive(Clone, Copy)]
pub enum Stage {
    Heading,
    FirstRow(Columns),
    LaterRows(Columns, u32, u64),
    Refused(Refusal),
}

#[derive(Clone, Copy)]
pub struct Turn {
    pub stage: Stage,
    pub found: Option<Sample>,
}

impl Turn {
    // A line that gave no row.
    fn waiting(stage: Stage) -> Turn
        ensures { result ≡ waiting stage }
    {
        Turn { stage, found: None }
    }
}

// One line more, up to the greatest place that 64 bits hold.
pub fn next_line(lines: u64) -> u64
    ensures { result ≡ min (suc lines) most_place }
{
    lines.saturating_add(1)
}

// After the heading line, the first row is awaited.
fn after_heading(headed: Result<Columns, Refusal>) -> Turn
    ensures { (l : Line) (ls : List Line) → headed_of headed ≡ heading_line sample_sheet.names l → to_come Stage.Heading (l ∷ ls) ≡ row_first result.found (to_come result.stage ls) }
{
    match headed {
        Ok(columns) => Turn::waiting(Stage::FirstRow(columns)),
        Err(refusal) => Turn::waiting(Stage::Refused(refusal)),
    }
}

// 21: "first row's time not 0".
fn after_first(columns: Columns, row: Result<Sample, Refusal>) -> Turn
    ensures { (l : Line) (ls : List Line) → result_of row ≡ row_in columns 2 l → to_come (Stage.FirstRow columns) (l ∷ ls) ≡ row_first result.found (to_come result.stage ls) }
{
    match row {
        Ok(sample) => {
            if sample.at == 0 {
                return Turn {
                    stage: Stage::LaterRows(columns, 0, 2),
                    found: Some(sample),
                };
            }
            Turn::waiting(Stage::Refused(Refusal::FirstTime(2)))
        }
        Err(refusal) => Turn::waiting(Stage::Refused(refusal)),
    }
}

// "A later row whose time is not above the last accepted one is skipped, after its checks".
pub fn after_later(columns: Columns, last: u32, line: u64, row: Result<Sample, Refusal>) -> Turn
    ensures { result ≡ after_later columns last line row }
{
    match row {
        Ok(sample) => {
            if last < sample.at {
                return Turn {
                    stage: Stage::LaterRows(columns, sample.at, line),
                    found: Some(sample),
                };
            }
            Turn::waiting(Stage::LaterRows(columns, last, line))
        }
        Err(refusal) => Turn::waiting(Stage::Refused(refusal)),
    }
}

// One whole line: `size` is its length without the LF.
pub fn take_line(stage: Stage, size: usize, text: &[u8]) -> Turn
    ensures { (ls : List Line) → to_come stage (record { size = size; text = text.now } ∷ ls) ≡ row_first result.found (to_come result.stage ls) }
{
    match stage {
        Stage::Heading => after_heading(heading_line(size, text)),
        Stage::FirstRow(columns) => after_first(columns, read_row(columns, 2, size, text)),
        Stage::LaterRows(columns, last, lines) => {
            let line = next_line(lines);
            after_later(columns, last, line, read_row(columns, line, size, text))
        }
        Stage::Refused(_) => Turn::waiting(stage),
    }
}

// A line whose bytes so far are more than a line may have, however it goes on.
pub fn too_long(stage: Stage) -> Stage
    ensures { (l : Line) (ls rest : List Line) → 512 < l.size → to_come stage (l ∷ ls) ≡ to_come result rest }
{
    match stage {
        Stage::Heading => Stage::Refused(Refusal::LineLength(1)),
        Stage::FirstRow(_) => Stage::Refused(Refusal::LineLength(2)),
        Stage::LaterRows(_, _, lines) => Stage::Refused(Refusal::LineLength(next_line(lines))),
        Stage::Refused(_) => stage,
    }
}

// The end of the file.
pub fn verdict_at(stage: Stage) -> Result<(), Refusal>
    ensures { end_of result ≡ to_come stage [] }
{
    match stage {
        Stage::Heading => Err(Refusal::FirstHeading(1)),
        Stage::FirstRow(_) => Err(Refusal::NoRow),
        Stage::LaterRows(_, _, _) => Ok(()),
        Stage::Refused(refusal) => Err(refusal),
    }
}

// Whether the lines so far came to a refusal.
pub fn line_refused(stage: Stage) -> bool
    ensures { result ≡ is_refused stage }
{
    matches!(stage, Stage::Refused(_))
}
