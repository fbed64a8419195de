// Steps 3 to 6: shed, solar, battery, diesel.
ghost use Rattle.std.specs.Prelude.{◌≡◌};
ghost use Rattle.rules.specs.Flows.{shed_now, solar_on_load, store_after, diesel_for, watts_for};

use crate::arithmetic::at_most;
use crate::battery::{battery_gives, battery_takes, store_after};
use rules::run::{Inputs, Watts};
use rules::station::Battery;

// A second's watts, and the store after it.
#[derive(Clone, Copy)]
pub(crate) struct Flows {
    pub(crate) watts: Watts,
    pub(crate) store: u64,
}

// 3, of the sheddable load and the amount decided "delay" seconds ago.
fn shed_now(sheddable: u32, decided: u32) -> u32
    ensures { result ≡ shed_now sheddable decided }
{
    sheddable.min(decided)
}

// 4: the floor load stays with the sets On.
fn solar_on_load(offered: u32, demand: u32, floor: u64) -> u32
    ensures { result ≡ solar_on_load offered demand floor }
{
    at_most(offered, (demand as u64).saturating_sub(floor))
}

// 6, of the rest less what the battery gives.
fn diesel_for(cap: u32, rest: u32) -> u32
    ensures { result ≡ diesel_for cap rest }
{
    rest.min(cap)
}

// What a second's load is met from: solar has the load before the battery has solar.
pub(crate) fn flow(
    battery: Battery,
    store: u64,
    cap: u32,
    floor: u64,
    decided: u32,
    inputs: Inputs,
) -> Flows
    ensures { (result.watts ≡ watts_for battery store cap floor decided inputs) × (result.store ≡ store_after battery store result.watts.charge result.watts.give) }
{
    let off = shed_now(inputs.sheddable, decided);
    let demand = inputs.load.saturating_sub(off);
    let solar = solar_on_load(inputs.solar, demand, floor);
    let rest = demand.saturating_sub(solar);
    let give = battery_gives(battery, store, cap, rest);
    let surplus = inputs.solar.saturating_sub(solar);
    let charge = battery_takes(battery, store, surplus);
    let spill = surplus.saturating_sub(charge);
    let after = store_after(battery, store, charge, give);
    let left = rest.saturating_sub(give);
    let diesel = diesel_for(cap, left);
    let unserved = left.saturating_sub(diesel);
    let watts = Watts {
        offered: inputs.solar,
        load: inputs.load,
        shed: off,
        solar,
        charge,
        spill,
        give,
        diesel,
        unserved,
    };
    Flows {
        watts,
        store: after,
    }
}
