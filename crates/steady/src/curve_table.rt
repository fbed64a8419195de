// A table for a stretch of steady seconds: for each of the mask's sets the running total of the ratings, and the lines of its fuel curve, so
// that a second reads them and does not work them out anew.
ghost use Rattle.std.specs.Prelude.{◌≡◌, ◌≤◌, ◌<◌};
ghost use Rattle.rules.specs.declared.station.GenSet.{GenSet};
ghost use Rattle.rules.specs.Fuel.{fuel_rate};
ghost use Rattle.steady.specs.CurveTable.{InRule, line_or_none, lines_of, Tabled};

use gensets::fuel::per_hour;
use gensets::line::{Line, line_of, rate_on};
use rules::station::GenSet;
use words::masks::places_of;

// What a steady second reads of a set On.
#[derive(Clone, Copy)]
pub(crate) struct SetTable {
    // the ratings of the mask's sets up to and with this one
    pub(crate) sum: u64,
    // the lines of its curve, in their order
    pub(crate) lines: [Line; 4],
}

// No power reaches the beginning of a line that the curve has not.
const NO_LINE: Line = Line {
    start: u64::MAX,
    width: 0,
    first: 0,
    second: 0,
};

// The line through the points j and j + 1.
fn line_or_none(genset: GenSet, j: usize) -> Line
    requires { j < 4 }
    ensures { result ≡ line_or_none genset j }
{
    if j + 1 < genset.points as usize {
        line_of(genset, j)
    } else {
        NO_LINE
    }
}

// A set's lines.
fn lines_of(genset: GenSet) -> [Line; 4]
    ensures { result ≡ lines_of genset }
{
    [
        line_or_none(genset, 0),
        line_or_none(genset, 1),
        line_or_none(genset, 2),
        line_or_none(genset, 3),
    ]
}

// The table of the mask's sets.
pub(crate) fn tables_of(sets: [GenSet; 8], mask: u32) -> [SetTable; 8]
    ensures { Tabled sets mask result }
{
    let zeros = Line {
        start: 0,
        width: 0,
        first: 0,
        second: 0,
    };
    let none = SetTable {
        sum: 0,
        lines: [zeros; 4],
    };
    let mut tables = [none; 8];
    let mut sum: u64 = 0;
    for place in places_of(mask) {
        sum += sets[place].rating as u64;
        let lines = lines_of(sets[place]);
        tables[place] = SetTable { sum, lines };
    }
    tables
}

// What a set with these lines burns in a second at a power. Loads rise, so that the line is as many places after the first as of those
// after it have begun.
pub(crate) fn burned_on(lines: &[Line; 4], power: u64) -> u64
    requires { power ≤ 10_000_000 }
    ensures { (g : GenSet) → InRule g → power ≤ g.rating → lines.now ≡ lines_of g → (result ≡ fuel_rate g power) × (result ≤ 15_000_000_000) }
{
    let at = power * 1000;
    let second = usize::from(lines[1].start <= at);
    let third = usize::from(lines[2].start <= at);
    let fourth = usize::from(lines[3].start <= at);
    per_hour(rate_on(lines[second + third + fourth], at))
}
