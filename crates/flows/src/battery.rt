// Step 5: what the battery gives and takes, and its content ("store") after that.
ghost use Rattle.std.specs.Prelude.{◌≡◌, ◌-◌, ◌*◌, ◌≤◌};
ghost use Rattle.rules.specs.Flows.{battery_gives, battery_takes, store_after};

use crate::arithmetic::at_most;
use rules::station::Battery;

// What it gives of a rest above the capacity.
pub(crate) fn battery_gives(battery: Battery, store: u64, cap: u32, rest: u32) -> u32
    ensures { result ≡ battery_gives battery store cap rest }
{
    let content = store.saturating_sub(battery.least) / 100;
    rest.saturating_sub(cap)
        .min(at_most(battery.power, content))
}

// What it takes of the surplus.
pub(crate) fn battery_takes(battery: Battery, store: u64, surplus: u32) -> u32
    ensures { result ≡ battery_takes battery store surplus }
{
    // no file gives an efficiency of 0, and the definition's quotient is 0 there
    if battery.efficiency == 0 {
        return 0;
    }
    let room = battery.most.saturating_sub(store) / (battery.efficiency as u64);
    surplus.min(at_most(battery.power, room))
}

// The store after a charge that its room allows: efficiency counts on the way in alone.
pub(crate) fn store_after(battery: Battery, store: u64, charge: u32, give: u32) -> u64
    requires { charge * battery.efficiency ≤ battery.most - store }
    ensures { result ≡ store_after battery store charge give }
{
    let efficiency = battery.efficiency as u64;
    (store + (charge as u64) * efficiency).saturating_sub(100 * (give as u64))
}
