// The eleven steps of a steady second: those whose answer follows from the modes alone were taken before.
ghost use Rattle.std.specs.Prelude.{◌≡◌, ◌+◌, length};
ghost use Rattle.laws.specs.Admitted.{Admitted};
ghost use Rattle.commitment.specs.Choice.{Rated};
ghost use Rattle.steady.specs.NextEvent.{NoEvent};
ghost use Rattle.steady.specs.CurveTable.{Tabled};
ghost use Rattle.steady.specs.SteadySecond.{Kept, run_at, SteadyStepped};

use crate::curve_table::SetTable;
use crate::steady_counts::{Added, count_steady};
use flows::amounts::{decide, oldest};
use flows::meet::meet_load;
use moments::parts::{Moment, moment_after, row_of};
use rules::run::{Inputs, Row, SetState};
use rules::station::Station;
use steps::step::commit_at;

// What stays the same until the next event: the masks of the sets On and of those called, the capacity and the floor load of the sets
// On, the sets that are due or in Service, and all states as they were.
#[derive(Clone, Copy)]
pub(crate) struct Steady {
    pub(crate) on: u32,
    pub(crate) called: u32,
    pub(crate) cap: u32,
    pub(crate) floor: u64,
    pub(crate) barred: u32,
    pub(crate) states: [SetState; 8],
}

// Where the steady seconds stand: the record but for its arrays, and how many they are.
#[derive(Clone, Copy)]
pub(crate) struct Standing {
    pub(crate) moment: Moment,
    pub(crate) ran: usize,
}

// What a second comes to beside the arrays.
#[derive(Clone, Copy)]
pub(crate) struct AfterSecond {
    pub(crate) moment: Moment,
    pub(crate) row: Row,
}

pub(crate) fn steady_step(
    st: Station,
    caps: &[u32; 64],
    steady: &Steady,
    tables: &[SetTable; 8],
    standing: Standing,
    inputs: Inputs,
    decided: &mut [u32],
    added: &mut [Added; 8],
) -> AfterSecond
    requires { Kept st steady.now × NoEvent st.sets steady.now.states (standing.ran + 1) × Admitted st (run_at steady.now standing added.old decided.old) inputs × Rated st.sets st.configs caps.now × (length decided.old ≡ 60) × Tabled st.sets steady.now.on tables.now }
    ensures { SteadyStepped st steady.now standing (run_at steady.now standing added.old decided.old) inputs result added.new decided.new }
{
    let moment = standing.moment;
    let cap = steady.cap;
    let met = meet_load(st, moment.store, cap, steady.floor, oldest(decided), inputs);
    let watts = met.watts;
    decide(st.control.delay, met.decided, decided);
    count_steady(st.sets, tables, steady.on, watts.diesel, cap, added);
    let chosen = commit_at(st, caps, steady.barred, moment, watts, inputs.sheddable);
    let call = chosen.call;
    AfterSecond {
        moment: moment_after(moment, call, chosen.held, met.store, watts),
        row: row_of(moment.done, watts, steady.on, call, met.store),
    }
}
