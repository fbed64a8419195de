// The eleven steps of a second: the record after it, and its row.
ghost use Rattle.commitment.specs.Commit.{CommittedBy};
ghost use Rattle.moments.specs.Parts.{run_of};
ghost use Rattle.steps.specs.Steps.{SteppedBy};

use commitment::commit::{Committed, commit};
use commitment::configuration::{capacity_fitting, mask_called};
use flows::amounts::{decide, oldest};
use flows::floor::floor_load;
use flows::meet::meet_load;
use modes::masks::{barred_mask, on_mask};
use modes::tick::tick_all;
use moments::parts::{Moment, moment_after, row_of};
use rules::run::{Inputs, Row, SetState, Watts};
use rules::station::Station;
use set_moves::commands::command_all;
use set_moves::counts::count_all;

// What the steps come to: the record after them but for the decided amounts, and the row.
#[derive(Clone, Copy)]
pub struct Stepped {
    pub moment: Moment,
    pub states: [SetState; 8],
    pub row: Row,
}

// Steps 9 and 10 of a second that begins at this moment.
pub fn commit_at(
    st: Station,
    caps: &[u32; 64],
    barred: u32,
    moment: Moment,
    watts: Watts,
    sheddable: u32,
) -> Committed
    ensures { CommittedBy st caps.now barred moment.setpoint moment.called moment.since moment.done watts sheddable result }
{
    commit(
        st,
        caps,
        barred,
        moment.setpoint,
        moment.called,
        moment.since,
        moment.done,
        watts,
        sheddable,
    )
}

// Whatever station, table of the configurations' capacities and record are handed in. The decided amounts move where they stand.
pub fn step(
    st: Station,
    caps: &[u32; 64],
    before: [SetState; 8],
    moment: Moment,
    inputs: Inputs,
    decided: &mut [u32],
) -> Stepped
    ensures { SteppedBy st caps.now (run_of moment before decided.old) inputs result decided.new }
{
    let states = tick_all(st.sets, before);
    let on = on_mask(states);
    let cap = capacity_fitting(st.sets, on);
    let met = meet_load(
        st,
        moment.store,
        cap,
        floor_load(st, on),
        oldest(decided),
        inputs,
    );
    let watts = met.watts;
    decide(st.control.delay, met.decided, decided);
    let ran = count_all(st.sets, states, on, watts.diesel);
    let barred = barred_mask(st.sets, ran);
    let chosen = commit_at(st, caps, barred, moment, watts, inputs.sheddable);
    let call = chosen.call;
    Stepped {
        moment: moment_after(moment, call, chosen.held, met.store, watts),
        states: command_all(st.sets, ran, mask_called(st.configs, call)),
        row: row_of(moment.done, watts, on, call, met.store),
    }
}
