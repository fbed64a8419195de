// Steps 3 to 7 together.
ghost use Rattle.flows.specs.Met.{MetBy};

use crate::amounts::shed_decided;
use crate::flow::flow;
use rules::run::{Inputs, Watts};
use rules::station::Station;

// What steps 3 to 7 come to: a second's watts, the store after it, and the shed amount decided.
#[derive(Clone, Copy)]
pub struct Met {
    pub watts: Watts,
    pub store: u64,
    pub decided: u32,
}

// Steps 3 to 7, where the sets On have this capacity and this floor load, and this is the amount decided "delay" seconds ago.
pub fn meet_load(st: Station, store: u64, cap: u32, floor: u64, oldest: u32, inputs: Inputs) -> Met
    ensures { MetBy st store cap floor oldest inputs result }
{
    let flows = flow(st.battery, store, cap, floor, oldest, inputs);
    let watts = flows.watts;
    let decided = shed_decided(st.control, cap, inputs.load, watts.solar, inputs.sheddable);
    Met {
        watts,
        store: flows.store,
        decided,
    }
}
