// The run's record, by value, and what a second works out.
use crate::answers::{Ended, Refusal};

// A set's mode, with the seconds that it still has.
#[derive(Clone, Copy)]
pub enum Mode {
    Off,
    Warming(u32),
    On,
    Cooling(u32),
    Service(u32),
}

#[derive(Clone, Copy)]
pub struct SetState {
    pub mode: Mode,
    // run seconds
    pub run: u32,
    // service clock: run seconds since the last service
    pub clock: u32,
    pub starts: u32,
    pub stops: u32,
    // in Ws
    pub energy: u64,
    // in units of 1/3600 mL
    pub fuel: u64,
}

// The filter's two weights and its held number.
#[derive(Clone, Copy)]
pub struct Filter {
    pub oldweight: f64,
    pub newweight: f64,
    pub held: f64,
}

// A number for each flow of energy: the solar offered, and the row's eight watt columns.
#[derive(Clone, Copy)]
pub struct ByFlow<T> {
    pub offered: T,
    pub load: T,
    pub shed: T,
    pub solar: T,
    pub charge: T,
    pub spill: T,
    pub give: T,
    pub diesel: T,
    pub unserved: T,
}

// A second's watts.
pub type Watts = ByFlow<u32>;

// The station totals: the same, summed over the seconds done, in Ws.
pub type Totals = ByFlow<u64>;

#[derive(Clone, Copy)]
pub struct Run {
    // seconds done
    pub done: u32,
    // since-second: the second in which the called configuration's number changed
    pub since: u32,
    // called configuration, 0 for none
    pub called: usize,
    // battery content ("store"), in hundredths of a Ws
    pub store: u64,
    pub setpoint: Option<f64>,
    pub sets: [SetState; 8],
    // decided shed amounts, oldest first
    pub decided: [u32; 60],
    pub totals: Totals,
}

// What a second is handed: load, solar offered and sheddable load, in W.
#[derive(Clone, Copy)]
pub struct Inputs {
    pub load: u32,
    pub solar: u32,
    pub sheddable: u32,
}

// A row's numbers.
#[derive(Clone, Copy)]
pub struct Row {
    pub second: u32,
    pub watts: Watts,
    // mask of the sets On
    pub on: u32,
    // how many sets that is
    pub sets: u32,
    // called configuration after the second
    pub call: usize,
    // store after the second
    pub store: u64,
}

// An accepted second: the record after it and its row.
#[derive(Clone, Copy)]
pub struct Step {
    pub run: Run,
    pub row: Row,
}

// A call's answer with the record that it hands back.
#[derive(Clone, Copy)]
pub struct Handed {
    pub answer: Result<usize, Refusal>,
    pub run: Run,
}

// What a call of many seconds answers: the record after those worked, how many they are, and why they are no more.
#[derive(Clone, Copy)]
pub struct Worked {
    pub run: Run,
    pub seconds: usize,
    pub ended: Ended,
}
