// The run's record and the inputs of a case, and a record's numbers in the same order.
ghost use Rattle.std.specs.Prelude.{◌+◌, ◌≤◌};

use crate::case::Case;
use crate::held::{bits_of, float_of};
use rules::run::{Inputs, Mode, Run, SetState, Totals};
use std::array::from_fn;

// Where a case has them: the record, its 8 sets of 8 numbers, its totals, its 60 amounts, and the inputs.
const RECORD: usize = 208;

const STATES: usize = 214;

const TOTALS: usize = 278;

const DECIDED: usize = 287;

const INPUTS: usize = 347;

fn mode_in(tag: u32, remaining: u32) -> Mode {
    match tag {
        0 => Mode::Off,
        1 => Mode::Warming(remaining),
        2 => Mode::On,
        3 => Mode::Cooling(remaining),
        _ => Mode::Service(remaining),
    }
}

fn state_in(case: &Case, at: usize) -> SetState
    requires { at + 8 ≤ 351 }
{
    let mode = mode_in(case.narrow(at), case.narrow(at + 1));
    SetState {
        mode,
        run: case.narrow(at + 2),
        clock: case.narrow(at + 3),
        starts: case.narrow(at + 4),
        stops: case.narrow(at + 5),
        energy: case.long(at + 6),
        fuel: case.long(at + 7),
    }
}

fn states_in(case: &Case) -> [SetState; 8] {
    from_fn(|i| state_in(case, STATES + 8 * i))
}

fn totals_in(case: &Case) -> Totals {
    Totals {
        offered: case.long(TOTALS),
        load: case.long(TOTALS + 1),
        shed: case.long(TOTALS + 2),
        solar: case.long(TOTALS + 3),
        charge: case.long(TOTALS + 4),
        spill: case.long(TOTALS + 5),
        give: case.long(TOTALS + 6),
        diesel: case.long(TOTALS + 7),
        unserved: case.long(TOTALS + 8),
    }
}

fn decided_in(case: &Case) -> [u32; 60] {
    from_fn(|i| case.narrow(DECIDED + i))
}

fn held_in(tag: u32, bits: u64) -> Option<f64> {
    if tag == 0 {
        return None;
    }
    Some(float_of(bits))
}

pub(crate) fn run_in(case: &Case) -> Run {
    let setpoint = held_in(case.narrow(RECORD + 4), case.long(RECORD + 5));
    let sets = states_in(case);
    let decided = decided_in(case);
    let totals = totals_in(case);
    Run {
        done: case.narrow(RECORD),
        since: case.narrow(RECORD + 3),
        called: case.narrow(RECORD + 2) as usize,
        store: case.long(RECORD + 1),
        setpoint,
        sets,
        decided,
        totals,
    }
}

pub(crate) fn inputs_in(case: &Case) -> Inputs {
    Inputs {
        load: case.narrow(INPUTS),
        solar: case.narrow(INPUTS + 1),
        sheddable: case.narrow(INPUTS + 2),
    }
}

// ---- the record handed back, after the three numbers of the outcome

const RECORD_OUT: usize = 3;

const STATES_OUT: usize = 9;

const TOTALS_OUT: usize = 73;

const DECIDED_OUT: usize = 82;

fn put_held(answer: &mut [u64; 142], held: Option<f64>) {
    if let Some(number) = held {
        answer[RECORD_OUT + 4] = 1;
        answer[RECORD_OUT + 5] = bits_of(number);
    }
}

// A mode's tag, and what remains of it.
fn tagged(mode: Mode) -> (u64, u64) {
    match mode {
        Mode::Off => (0, 0),
        Mode::Warming(remaining) => (1, remaining as u64),
        Mode::On => (2, 0),
        Mode::Cooling(remaining) => (3, remaining as u64),
        Mode::Service(remaining) => (4, remaining as u64),
    }
}

fn put_state(answer: &mut [u64; 142], at: usize, state: SetState)
    requires { at + 8 ≤ 142 }
{
    let (tag, remaining) = tagged(state.mode);
    answer[at] = tag;
    answer[at + 1] = remaining;
    answer[at + 2] = state.run as u64;
    answer[at + 3] = state.clock as u64;
    answer[at + 4] = state.starts as u64;
    answer[at + 5] = state.stops as u64;
    answer[at + 6] = state.energy;
    answer[at + 7] = state.fuel;
}

fn put_states(answer: &mut [u64; 142], states: [SetState; 8]) {
    for i in 0..8 {
        put_state(answer, STATES_OUT + 8 * i, states[i]);
    }
}

fn put_totals(answer: &mut [u64; 142], totals: Totals) {
    answer[TOTALS_OUT] = totals.offered;
    answer[TOTALS_OUT + 1] = totals.load;
    answer[TOTALS_OUT + 2] = totals.shed;
    answer[TOTALS_OUT + 3] = totals.solar;
    answer[TOTALS_OUT + 4] = totals.charge;
    answer[TOTALS_OUT + 5] = totals.spill;
    answer[TOTALS_OUT + 6] = totals.give;
    answer[TOTALS_OUT + 7] = totals.diesel;
    answer[TOTALS_OUT + 8] = totals.unserved;
}

fn put_decided(answer: &mut [u64; 142], decided: [u32; 60]) {
    for i in 0..60 {
        answer[DECIDED_OUT + i] = decided[i] as u64;
    }
}

pub(crate) fn put_record(answer: &mut [u64; 142], run: Run) {
    answer[RECORD_OUT] = run.done as u64;
    answer[RECORD_OUT + 1] = run.store;
    answer[RECORD_OUT + 2] = run.called as u64;
    answer[RECORD_OUT + 3] = run.since as u64;
    put_held(answer, run.setpoint);
    put_states(answer, run.sets);
    put_totals(answer, run.totals);
    put_decided(answer, run.decided);
}
