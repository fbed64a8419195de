// Step 8: the fuel rate of a set at a power.
ghost use Rattle.std.specs.Prelude.{◌≡◌, suc, ◌≤◌, ◌<◌};
ghost use Rattle.rules.specs.Fuel.{lower_point};
ghost use Rattle.gensets.specs.Burned.{per_hour};
ghost use Rattle.gensets.specs.Leaves.{line_right, rate_told};

use crate::line::{line_of, product, rate_on};
use rules::station::GenSet;
use station_fields::ranges;

// Why a set has no rate at a power.
#[derive(Clone, Copy, Debug, PartialEq, Eq)]
pub enum NoRate {
    // the power is above twice the rating, to which the curve is followed
    OverTwiceRating,
    // the set's numbers are outside the rules of a file
    OutOfRange,
}

// The rate itself, and 0 where there is none.
pub fn per_hour(rate: Result<u64, NoRate>) -> u64
    ensures { result ≡ per_hour rate }
{
    rate.unwrap_or(0)
}

// The place of the lower of the two points around a power.
fn lower_point(g: GenSet, power: u32) -> usize
    requires { (2 ≤ g.points) × (g.points ≤ 5) }
    ensures { (result ≡ lower_point g power) × (suc result < g.points) }
{
    let at = product(power, 1000);
    for j in (1..g.points as usize - 1).rev() {
        if product(g.loads[j], g.rating) <= at {
            return j;
        }
    }
    0
}

// Whether the rating and the points j and j + 1 are in rule.
fn line_right(g: GenSet, j: usize) -> bool
    requires { j < 4 }
    ensures { result ≡ line_right g j }
{
    let next = g.loads[j + 1];
    (ranges::RATING_LEAST <= g.rating)
        & (g.rating <= ranges::RATING_MOST)
        & (g.loads[j] < next)
        & (next <= ranges::PAIR_LOAD_MOST)
        & (g.rates[j] <= ranges::PAIR_RATE_MOST)
        & (g.rates[j + 1] <= ranges::PAIR_RATE_MOST)
}

// The rate at a power, of any record.
pub fn fuel_rate(g: GenSet, power: u32) -> Result<u64, NoRate>
    ensures { result ≡ rate_told g power }
{
    if g.points < ranges::POINTS_LEAST {
        return Err(NoRate::OutOfRange);
    }
    if ranges::POINTS_MOST < g.points {
        return Err(NoRate::OutOfRange);
    }
    let j = lower_point(g, power);
    if !line_right(g, j) {
        return Err(NoRate::OutOfRange);
    }
    if 2 * g.rating < power {
        return Err(NoRate::OverTwiceRating);
    }
    rate_on(line_of(g, j), product(power, 1000))
}
