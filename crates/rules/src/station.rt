// The station's record: what a station file gives. Whatever the file has not is zero.

#[derive(Clone, Copy)]
pub struct Control {
    // spinning reserve, in W
    pub spinning: u32,
    // solar coverage, in %
    pub coverage: u32,
    // minimum load, in %
    pub minload: u32,
    // shed, in %
    pub shed: u32,
    // shed delay, in s
    pub delay: u32,
    // filter k, in thousandths
    pub k: u32,
    // minimum seconds
    pub minseconds: u32,
    pub maintain: u32,
    // mask of the sets on line at the start
    pub online: u32,
}

#[derive(Clone, Copy)]
pub struct Battery {
    // rating, in W
    pub power: u32,
    // in %
    pub efficiency: u32,
    // contents, in hundredths of a Ws
    pub least: u64,
    pub most: u64,
    pub start: u64,
}

// A genset ("set").
#[derive(Clone, Copy)]
pub struct GenSet {
    // in W
    pub rating: u32,
    // in s
    pub warmup: u32,
    pub cooldown: u32,
    // service interval in run seconds, 0 for never
    pub interval: u32,
    // service time, in s
    pub service: u32,
    // how many pairs of the fuel curve are used
    pub points: u32,
    // the pairs' loads, in thousandths of the rating
    pub loads: [u32; 5],
    // the pairs' rates, in mL/h
    pub rates: [u32; 5],
}

#[derive(Clone, Copy)]
pub struct Station {
    pub control: Control,
    pub battery: Battery,
    pub setcount: usize,
    pub configcount: usize,
    pub sets: [GenSet; 8],
    // each configuration's mask of sets
    pub configs: [u8; 64],
}
