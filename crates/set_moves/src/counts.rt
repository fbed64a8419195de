// Step 8: what a second adds to the counts of each set.
ghost use Rattle.std.specs.Prelude.{◌≡◌};
ghost use Rattle.gensets.specs.Burned.{per_hour};
ghost use Rattle.gensets.specs.Leaves.{rate_told};
ghost use Rattle.set_moves.specs.InType.{counted_in, counted_all_in};

use gensets::fuel::{fuel_rate, per_hour};
use gensets::share::{shares, watts_of};
use rules::run::SetState;
use rules::station::GenSet;
use words::masks::places_of;

// What a set burns in a second; one that no file gives has no rate.
fn burned(genset: GenSet, power: u32) -> u64
    ensures { result ≡ per_hour (rate_told genset power) }
{
    per_hour(fuel_rate(genset, power))
}

// The counts of a set On after a second at a power.
fn count(genset: GenSet, state: SetState, power: u32) -> SetState
    ensures { result ≡ counted_in genset state power }
{
    SetState {
        run: state.run.wrapping_add(1),
        clock: state.clock.wrapping_add(1),
        energy: state.energy.wrapping_add(power as u64),
        fuel: state.fuel.wrapping_add(burned(genset, power)),
        ..state
    }
}

// Every set's counts, where the mask has the sets On: each of them at its share of the diesel power.
pub fn count_all(sets: [GenSet; 8], states: [SetState; 8], mask: u32, diesel: u32) -> [SetState; 8]
    ensures { result ≡ counted_all_in sets states mask diesel }
{
    let watts = watts_of(shares(sets, mask, diesel));
    let mut out = states;
    for place in places_of(mask) {
        out[place] = count(sets[place], out[place], watts[place]);
    }
    out
}
