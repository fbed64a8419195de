// The steady seconds up to the next event, or to the first that calls other sets.
ghost use Rattle.std.specs.Prelude.{◌≡◌, true, length};
ghost use Rattle.rules.specs.Configuration.{mask_called};
ghost use Rattle.rules.specs.Seconds.{inputs_each};
ghost use Rattle.rules.specs.StationRecord.{some_file_gives};
ghost use Rattle.steady.specs.NextEvent.{NoEvent, unmoved_all};
ghost use Rattle.steady.specs.SteadySecond.{Kept, SteadyFor, Workable, GoesOn};

use crate::curve_table::tables_of;
use crate::next_event::{unmoved_all, until_event};
use crate::steady_counts::{Added, made};
use crate::steady_step::Steady;
use crate::steady_walk::steady_walk;
use commitment::configuration::{capacity_fitting, mask_called};
use flows::floor::floor_load;
use modes::masks::{barred_mask, on_mask};
use moments::parts::Moment;
use rules::run::SetState;
use rules::station::Station;
use set_moves::commands::command_all;

// The record after some seconds but for the decided amounts, and how many they are.
#[derive(Clone, Copy)]
pub(crate) struct AfterSeconds {
    pub(crate) moment: Moment,
    pub(crate) states: [SetState; 8],
    pub(crate) seconds: usize,
}

// For how many seconds the sets stay as they are: none, where the commands to those called would change one.
pub(crate) fn steady_for(st: Station, states: [SetState; 8], called: u32) -> usize
    ensures { SteadyFor st states called result }
{
    if !unmoved_all(states, called) {
        return 0;
    }
    until_event(st.sets, states)
}

// What stays the same until the next event.
pub(crate) fn kept(st: Station, states: [SetState; 8], called: u32) -> Steady
    requires { some_file_gives st ≡ true }
    ensures { Kept st result × (result.states ≡ states) × (result.called ≡ called) }
{
    let on = on_mask(states);
    Steady {
        on,
        called,
        cap: capacity_fitting(st.sets, on),
        floor: floor_load(st, on),
        barred: barred_mask(st.sets, states),
        states,
    }
}

pub(crate) fn steady_seconds(
    st: Station,
    caps: &[u32; 64],
    steady: &Steady,
    moment: Moment,
    inputs: &[u32],
    decided: &mut [u32],
    rows: &mut [u64],
) -> AfterSeconds
    requires { Workable st steady.now.states moment caps.now inputs.now decided.old rows.old × Kept st steady.now × (unmoved_all steady.now.states steady.now.called ≡ true) × (mask_called st.configs moment.called ≡ steady.now.called) × NoEvent st.sets steady.now.states (length (inputs_each inputs.now)) }
    ensures { GoesOn st steady.now.states moment inputs.now decided.old rows.old result decided.new rows.new }
{
    let tables = tables_of(st.sets, steady.on);
    let none = Added { energy: 0, fuel: 0 };
    let mut added = [none; 8];
    let walked = steady_walk(
        st, caps, steady, &tables, moment, inputs, decided, &mut added, rows,
    );
    let ran = made(steady.states, steady.on, walked.ran as u32, &added);
    let states = command_all(st.sets, ran, mask_called(st.configs, walked.moment.called));
    AfterSeconds {
        moment: walked.moment,
        states,
        seconds: walked.ran,
    }
}
