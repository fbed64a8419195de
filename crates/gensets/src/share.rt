// Steps 2 and 6: the capacity of a mask, and what each of its sets takes of the diesel power.
ghost use Rattle.std.specs.Prelude.{◌≡◌, ◌*◌, ◌/◌, ◌≤◌};
ghost use Rattle.rules.specs.Numbers.{tab};
ghost use Rattle.rules.specs.Share.{capacity, share};
ghost use Rattle.gensets.specs.Leaves.{Shareable, shares_told, watts_of};

use rules::station::GenSet;
use words::masks::places_of;

// Eight sets of at most 10,000,000 W each.
const MOST_CAPACITY: u64 = 80_000_000;

// Why a diesel power could not be shared.
#[derive(Clone, Copy, Debug, PartialEq, Eq)]
pub enum Unshared {
    // it is above the capacity of the sets
    OverCapacity,
    // the capacity is above what eight sets of a file have
    OutOfRange,
}

// The watts themselves, and none at any place where the power could not be shared.
pub fn watts_of(answer: Result<[u32; 8], Unshared>) -> [u32; 8]
    ensures { result ≡ watts_of answer }
{
    answer.unwrap_or([0; 8])
}

// The ratings of the mask's sets, summed: eight of 32 bits at most.
pub fn capacity(sets: [GenSet; 8], mask: u32) -> u64
    ensures value { result ≡ capacity sets mask }
    ensures upper_bound { result ≤ 34_359_738_360 }
{
    let mut sum: u64 = 0;
    for place in places_of(mask) {
        sum += sets[place].rating as u64;
    }
    sum
}

// What the sets up to one take together of a diesel power: the part that the sum of their ratings is of the capacity, rounded down.
pub fn upto(diesel: u32, sum: u32, cap: u32) -> u64
    ensures { result ≡ diesel * sum / cap }
{
    // a quotient by 0 is 0 in the definitions
    if cap == 0 {
        return 0;
    }
    (diesel as u64) * (sum as u64) / (cap as u64)
}

// What each set of the mask takes of some diesel power that the capacity allows; a place that the mask has not takes nothing.
fn taken(sets: [GenSet; 8], mask: u32, diesel: u32, cap: u32) -> [u32; 8]
    requires { Shareable sets mask diesel cap }
    ensures { result ≡ tab 8 (share sets mask diesel) }
{
    let mut out = [0u32; 8];
    let mut sum: u32 = 0;
    let mut given: u64 = 0;
    for place in places_of(mask) {
        sum += sets[place].rating;
        // each less what the sets before it took: rounded alone, the shares would miss the diesel power
        let together = upto(diesel, sum, cap);
        out[place] = (together - given) as u32;
        given = together;
    }
    out
}

// Each place's watts: what each set of the mask takes of the diesel power.
pub fn shares(sets: [GenSet; 8], mask: u32, diesel: u32) -> Result<[u32; 8], Unshared>
    ensures { result ≡ shares_told sets mask diesel }
{
    let cap = capacity(sets, mask);
    if MOST_CAPACITY < cap {
        return Err(Unshared::OutOfRange);
    }
    if cap < diesel as u64 {
        return Err(Unshared::OverCapacity);
    }
    // no power asks nothing of a set, and for any other the capacity is not 0
    if diesel == 0 {
        return Ok([0; 8]);
    }
    Ok(taken(sets, mask, diesel, cap as u32))
}
