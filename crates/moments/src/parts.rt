// A run's record in parts, so that many seconds change its arrays where they stand.
ghost use Rattle.std.specs.Prelude.{◌≡◌};
ghost use Rattle.moments.specs.Parts.{run_of, moment_after, row_of};

use crate::totals::plus;
use commitment::configuration::since_after;
use rules::run::{Row, Run, SetState, Totals, Watts};

// The record without its arrays.
#[derive(Clone, Copy)]
pub struct Moment {
    pub done: u32,
    pub since: u32,
    pub called: usize,
    pub store: u64,
    pub setpoint: Option<f64>,
    pub totals: Totals,
}

pub fn moment_of(run: Run) -> Moment
    ensures { run_of result run.sets run.decided ≡ run }
{
    Moment {
        done: run.done,
        since: run.since,
        called: run.called,
        store: run.store,
        setpoint: run.setpoint,
        totals: run.totals,
    }
}

pub fn whole(moment: Moment, states: [SetState; 8], decided: [u32; 60]) -> Run
    ensures { result ≡ run_of moment states decided }
{
    Run {
        done: moment.done,
        since: moment.since,
        called: moment.called,
        store: moment.store,
        setpoint: moment.setpoint,
        sets: states,
        decided,
        totals: moment.totals,
    }
}

// The record after a second but for its arrays, by what it called, held, stored and met.
pub fn moment_after(moment: Moment, call: usize, held: f64, store: u64, watts: Watts) -> Moment
    ensures { result ≡ moment_after moment call held store watts }
{
    Moment {
        done: moment.done.wrapping_add(1),
        since: since_after(call, moment.called, moment.since, moment.done),
        called: call,
        store,
        setpoint: Some(held),
        totals: plus(moment.totals, watts),
    }
}

// Its row: the mask of the sets On, "and how many sets that is".
pub fn row_of(second: u32, watts: Watts, on: u32, call: usize, store: u64) -> Row
    ensures { result ≡ row_of second watts on call store }
{
    Row {
        second,
        watts,
        on,
        sets: on.count_ones(),
        call,
        store,
    }
}
