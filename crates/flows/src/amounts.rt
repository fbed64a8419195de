// Step 7: the shed amount decided, and the amounts held until their delay is over (step 3).
ghost use Rattle.std.specs.Prelude.{◌≡◌, ◌≤◌, min, max, length, get_or};
ghost use Rattle.rules.specs.Flows.{shed_decided, decided_after};
ghost use Rattle.flows.specs.Amounts.{decided_in};

use crate::arithmetic::{at_most, percent};
use rules::station::Control;
use station_fields::ranges;

// What solar and the shed % of the capacity leave of the load: of the whole of it, also while some is shed.
pub(crate) fn shed_decided(control: Control, cap: u32, load: u32, solar: u32, sheddable: u32) -> u32
    ensures { result ≡ shed_decided control cap load solar sheddable }
{
    let left = load.saturating_sub(solar);
    at_most(
        sheddable,
        (left as u64).saturating_sub(percent(cap, control.shed)),
    )
}

// The amount decided "delay" seconds ago: the oldest held, and 0 where none is.
pub fn oldest(decided: &[u32]) -> u32
    ensures { result ≡ get_or decided.now 0 0 }
{
    decided.first().copied().unwrap_or(0)
}

// How many amounts move: a delay of 0, which no file gives, counts as 1, and there are 60 amounts.
fn moving(delay: u32) -> usize
    ensures { result ≡ min 60 (max 1 delay) }
{
    delay.clamp(ranges::SHED_DELAY_LEAST, ranges::SHED_DELAY_MOST) as usize
}

// The oldest goes, and the new one is the last of the first `count`.
fn move_amounts(count: usize, new: u32, after: &mut [u32])
    requires { (1 ≤ count) × (count ≤ length after.old) }
    ensures { after.new ≡ decided_after count after.old new }
{
    after.copy_within(1..count, 0);
    after[count - 1] = new;
}

// The decided amounts, oldest first, once another is decided: of sixty amounts the first that the delay has, in place. Other than sixty
// are left as they are.
pub fn decide(delay: u32, new: u32, amounts: &mut [u32])
    ensures { amounts.new ≡ decided_in delay new amounts.old }
{
    if amounts.len() == 60 {
        move_amounts(moving(delay), new, amounts);
    }
}
