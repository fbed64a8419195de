// A line of a fuel curve in whole numbers, and the rate on it.
ghost use Rattle.std.specs.Prelude.{◌≡◌, true, ◌*◌, ◌≤◌};
ghost use Rattle.gensets.specs.Lines.{line_of, line_small, height_of, rate_on};

use crate::fuel::NoRate;
use rules::station::GenSet;
use station_fields::ranges;

// A load of at most 1,500 thousandths of a rating of at most 10,000,000 W.
const MOST_START: u64 = 15_000_000_000;

// Twice such a rating.
const MOST_AT: u64 = 20_000_000_000;

// The line between two points of a set's curve.
#[derive(Clone, Copy)]
pub struct Line {
    // the power x 1000 where it begins
    pub start: u64,
    // how far it reaches, in that scale
    pub width: u64,
    // mL/h at its two ends
    pub first: u64,
    pub second: u64,
}

// The whole product of two numbers.
pub(crate) fn product(a: u32, b: u32) -> u64
    ensures { result ≡ a * b }
{
    (a as u64) * (b as u64)
}

// The line through the points j and j + 1; a set has five points at most.
pub fn line_of(g: GenSet, j: usize) -> Line
    ensures { result ≡ line_of g j }
{
    if 4 <= j {
        return Line {
            start: 0,
            width: 0,
            first: 0,
            second: 0,
        };
    }
    let load = g.loads[j];
    Line {
        start: product(load, g.rating),
        width: product(g.rating, g.loads[j + 1].saturating_sub(load)),
        first: g.rates[j] as u64,
        second: g.rates[j + 1] as u64,
    }
}

// Whether a set of a file may have the line.
fn is_small(line: Line) -> bool
    ensures { result ≡ line_small line }
{
    (1 <= line.width)
        & (line.width <= MOST_START)
        & (line.start <= MOST_START)
        & (line.first <= (ranges::PAIR_RATE_MOST as u64))
        & (line.second <= (ranges::PAIR_RATE_MOST as u64))
}

// How high the line is at a power x 1000, times its width; never below zero.
fn height(line: Line, at: u64) -> u64
    requires { (line_small line ≡ true) × (at ≤ 20_000_000_000) }
    ensures { result ≡ height_of line at }
{
    let base = line.first * line.width;
    let rise = (line.second as i64) - (line.first as i64);
    let run = (at as i64) - (line.start as i64);
    let exact = (base as i64) + rise * run;
    if exact < 0 {
        return 0;
    }
    exact as u64
}

// The rate on a line at a power x 1000, of any numbers.
pub fn rate_on(line: Line, at: u64) -> Result<u64, NoRate>
    ensures { result ≡ rate_on line at }
{
    if !is_small(line) {
        return Err(NoRate::OutOfRange);
    }
    if MOST_AT < at {
        return Err(NoRate::OutOfRange);
    }
    Ok(height(line, at) / line.width)
}
