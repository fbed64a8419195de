// The seconds from a place on: the steady ones up to the next event, or the one second in which a set changes its mode.
ghost use Rattle.steady.specs.SteadySecond.{Workable, GoesOn};

use crate::steady_seconds::{AfterSeconds, kept, steady_for, steady_seconds};
use admission::inputs::first_inputs;
use commitment::configuration::mask_called;
use moments::parts::Moment;
use rows::row_numbers::put_row_numbers;
use rules::limits::SECOND_INPUTS;
use rules::run::SetState;
use rules::station::Station;
use steps::step::step;

// One second by its eleven steps.
fn one_second(
    st: Station,
    caps: &[u32; 64],
    states: [SetState; 8],
    moment: Moment,
    inputs: &[u32],
    decided: &mut [u32],
    rows: &mut [u64],
) -> AfterSeconds
    requires { Workable st states moment caps.now inputs.now decided.old rows.old }
    ensures { GoesOn st states moment inputs.now decided.old rows.old result decided.new rows.new }
{
    let stepped = step(st, caps, states, moment, first_inputs(inputs), decided);
    put_row_numbers(stepped.row, rows);
    let states = stepped.states;
    AfterSeconds {
        moment: stepped.moment,
        states,
        seconds: 1,
    }
}

pub(crate) fn stretch_from(
    st: Station,
    caps: &[u32; 64],
    states: [SetState; 8],
    moment: Moment,
    inputs: &[u32],
    decided: &mut [u32],
    rows: &mut [u64],
) -> AfterSeconds
    requires { Workable st states moment caps.now inputs.now decided.old rows.old }
    ensures { GoesOn st states moment inputs.now decided.old rows.old result decided.new rows.new }
{
    let called = mask_called(st.configs, moment.called);
    let most = steady_for(st, states, called).min(inputs.len() / SECOND_INPUTS);
    if most == 0 {
        return one_second(st, caps, states, moment, inputs, decided, rows);
    }
    let steady = kept(st, states, called);
    steady_seconds(
        st,
        caps,
        &steady,
        moment,
        &inputs[..SECOND_INPUTS * most],
        decided,
        rows,
    )
}
