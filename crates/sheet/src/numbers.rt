// "Time: 1 to 9 digits"; "Power in kW: 1 to 6 digits, then nothing or a point and 1 to 3 digits".
ghost use Rattle.std.specs.Prelude.{◌≡◌, Bool, ℕ, ◌-◌, ◌^◌, ◌≤◌};
ghost use Rattle.rules.specs.Bytes.{point, parts, digits, value};
ghost use Rattle.rules.specs.SampleFile.{sample_sheet, limited, time_cell, power_form, power_value, power_cell, cell};
ghost use Rattle.sheet.specs.Cells.{cell_of};
ghost use Rattle.sheet.specs.Digits.{formed};

use rules::limits::{MOST_DECIMALS, MOST_KW_DIGITS, MOST_POWER, MOST_TIME, MOST_TIME_DIGITS};

// Why a cell has no value. `specs/Cells.antt` gives document 01's number for each case.
#[derive(Clone, Copy)]
pub enum CellFault {
    Malformed,
    OverLimit,
}

// "1 to 9 digits", "1 to 6 digits", "1 to 3 digits": the one reader of digits. The length is asked first, so that no sum wraps.
fn digits_of(part: &[u8], most: usize) -> Option<u32>
    requires { most ≤ 9 }
    ensures { result ≡ formed (digits most part.now) (value part.now) }
{
    if part.is_empty() || most < part.len() {
        return None;
    }
    let mut number: u32 = 0;
    for &byte in part {
        if !byte.is_ascii_digit() {
            return None;
        }
        number = number * 10 + u32::from(byte - b'0');
    }
    Some(number)
}

// What the last of so many decimals of a kW is worth, in W.
pub fn last_worth(decimals: usize) -> u32
    ensures { (result ≡ 10 ^ (3 - decimals)) × (result ≤ 1000) }
{
    match decimals {
        0 => 1000,
        1 => 100,
        2 => 10,
        _ => 1,
    }
}

// A power in W, before its limit is asked. What follows the first point has no other point, since a point is no digit.
fn watts_of(cell: &[u8]) -> Option<u32>
    ensures { result ≡ formed (power_form (parts point cell.now)) (power_value (parts point cell.now)) }
{
    let point = byte_search::find(cell, 0, cell.len(), b'.');
    let whole = digits_of(&cell[..point], MOST_KW_DIGITS)?;
    if point == cell.len() {
        return Some(whole * 1000);
    }
    let decimals = &cell[point + 1..];
    let fraction = digits_of(decimals, MOST_DECIMALS)?;
    Some(whole * 1000 + fraction * last_worth(decimals.len()))
}

// "18 before 19": the form is judged before the limit.
fn limited(limit: u32, number: Option<u32>) -> Result<u32, CellFault>
    ensures { (line : ℕ) (form : Bool) (v : ℕ) → number ≡ formed form v → cell_of line result ≡ limited line limit form v }
{
    let Some(value) = number else {
        return Err(CellFault::Malformed);
    };
    if limit < value {
        return Err(CellFault::OverLimit);
    }
    Ok(value)
}

// A time in seconds, up to a limit.
pub fn time(limit: u32, cell: &[u8]) -> Result<u32, CellFault>
    ensures { (line : ℕ) → cell_of line result ≡ time_cell line limit cell.now }
{
    limited(limit, digits_of(cell, MOST_TIME_DIGITS))
}

// A power in W, up to a limit.
pub fn power(limit: u32, cell: &[u8]) -> Result<u32, CellFault>
    ensures { (line : ℕ) → cell_of line result ≡ power_cell line limit cell.now }
{
    limited(limit, watts_of(cell))
}

// A cell under the heading whose name has this place.
pub fn cell_under(name: u8, part: &[u8]) -> Result<u32, CellFault>
    ensures { (line : ℕ) → cell_of line result ≡ cell line sample_sheet.limits name part.now }
{
    if name == 0 {
        return time(MOST_TIME, part);
    }
    if name <= 3 {
        return power(MOST_POWER, part);
    }
    power(0, part)
}
