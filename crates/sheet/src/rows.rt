// A row: "11, 17, cells left to right 18 before 19, then 20".
ghost use Rattle.std.specs.Prelude.{◌≡◌, [], ◌∷◌};
ghost use Rattle.rules.specs.Answers.{result_of};
ghost use Rattle.rules.specs.SampleFile.{sample_sheet, cell, value_under};
ghost use Rattle.sheet.specs.Rows.{row_in, row_of_cells, row_of_values, power_columns};

use crate::numbers::{CellFault, cell_under};
use rules::answers::Refusal;
use rules::limits::MOST_LINE;
use rules::samples::Sample;
use sheet_headings::cells::cell_at;
use sheet_headings::headings::Columns;

// The values of the columns after the time's, in the file's order.
#[derive(Clone, Copy)]
pub struct Powers {
    pub second: u32,
    pub third: u32,
    pub fourth: u32,
}

// The value of a cell under the heading whose name has this place, or the refusal of its line.
fn cell_value(line: u64, name: u8, part: &[u8]) -> Result<u32, Refusal>
    ensures { result_of result ≡ cell line sample_sheet.limits name part.now }
{
    let cell = cell_under(name, part);
    let Ok(value) = cell else {
        return Err(match cell {
            Err(CellFault::OverLimit) => Refusal::OverLimit(line),
            Ok(_) | Err(CellFault::Malformed) => Refusal::Malformed(line),
        });
    };
    Ok(value)
}

// The value of the first column after the time's that has this name.
pub fn value_under(name: u8, columns: Columns, powers: Powers) -> u32
    ensures { result ≡ value_under name (power_columns columns) (powers.second ∷ powers.third ∷ powers.fourth ∷ []) }
{
    if name == columns.second {
        return powers.second;
    }
    if name == columns.third {
        return powers.third;
    }
    if name == columns.fourth {
        return powers.fourth;
    }
    0
}

// 20: "sheddable load above load".
fn agreeing(line: u64, columns: Columns, at: u32, powers: Powers) -> Result<Sample, Refusal>
    ensures { result_of result ≡ row_of_values columns line (at ∷ powers.second ∷ powers.third ∷ powers.fourth ∷ []) }
{
    let sample = Sample {
        at,
        load: value_under(1, columns, powers),
        solar: value_under(2, columns, powers),
        sheddable: value_under(3, columns, powers),
    };
    if sample.load < sample.sheddable {
        return Err(Refusal::SheddableAboveLoad(line));
    }
    Ok(sample)
}

// "cells left to right 18 before 19".
fn read_cells(
    columns: Columns,
    line: u64,
    first: &[u8],
    second: &[u8],
    third: &[u8],
    fourth: &[u8],
) -> Result<Sample, Refusal>
    ensures { result_of result ≡ row_of_cells columns line (first.now ∷ second.now ∷ third.now ∷ fourth.now ∷ []) }
{
    let at = cell_value(line, 0, first)?;
    let powers = Powers {
        second: cell_value(line, columns.second, second)?,
        third: cell_value(line, columns.third, third)?,
        fourth: cell_value(line, columns.fourth, fourth)?,
    };
    agreeing(line, columns, at, powers)
}

// `line` is the line's number, and `size` its length without the LF.
pub fn read_row(columns: Columns, line: u64, size: usize, text: &[u8]) -> Result<Sample, Refusal>
    ensures { result_of result ≡ row_in columns line (record { size = size; text = text.now }) }
{
    if MOST_LINE < size {
        return Err(Refusal::LineLength(line));
    }
    let first = cell_at(text, 0);
    let first_end = first.len();
    if text.len() <= first_end {
        return Err(Refusal::CellCount(line));
    }
    let second = cell_at(text, first_end + 1);
    let second_end = first_end + 1 + second.len();
    if text.len() <= second_end {
        return Err(Refusal::CellCount(line));
    }
    let third = cell_at(text, second_end + 1);
    let third_end = second_end + 1 + third.len();
    if text.len() <= third_end {
        return Err(Refusal::CellCount(line));
    }
    let fourth = cell_at(text, third_end + 1);
    let fourth_end = third_end + 1 + fourth.len();
    if fourth_end < text.len() {
        return Err(Refusal::CellCount(line));
    }
    read_cells(columns, line, first, second, third, fourth)
}
