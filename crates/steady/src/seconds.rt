// Many seconds on one judgement, the steady ones between two events together: the rows are those of `dispatch::seconds`.
ghost use Rattle.std.specs.Prelude.{◌*◌, ◌≤◌, length, ◌≡◌};
ghost use Rattle.rules.specs.Seconds.{inputs_each, Seconds};
ghost use Rattle.dispatch.specs.Working.{Admits, Works};

use crate::stretch::stretch_from;
use admission::admit::judge_seconds;
use commitment::configuration::capacities;
use moments::parts::{moment_of, whole};
use rules::limits::{ROW_COLUMNS, SECOND_INPUTS};
use rules::run::{Run, Worked};
use rules::station::Station;

// Seconds of which none is refused, with a place for the row of each.
fn work_seconds(st: Station, run: Run, inputs: &[u32], count: usize, rows: &mut [u64]) -> Run
    requires { Admits st run (inputs_each inputs.now) × (count ≡ length (inputs_each inputs.now)) × (13 * count ≤ length rows.old) }
    ensures { Works st run (inputs_each inputs.now) rows.old count result rows.new }
{
    let caps = capacities(st.sets, st.configs);
    let mut decided = run.decided;
    let mut states = run.sets;
    let mut moment = moment_of(run);
    let mut i: usize = 0;
    while i < count {
        let went = stretch_from(
            st,
            &caps,
            states,
            moment,
            &inputs[SECOND_INPUTS * i..],
            &mut decided,
            &mut rows[ROW_COLUMNS * i..],
        );
        moment = went.moment;
        states = went.states;
        i += went.seconds;
    }
    whole(moment, states, decided)
}

// A second for each three inputs, up to the first that has no place among the rows or that the rules refuse.
pub fn seconds(st: Station, run: Run, inputs: &[u32], rows: &mut [u64]) -> Worked
    ensures { Seconds st run inputs.now rows.old result rows.new }
{
    let judged = judge_seconds(st, run, inputs, rows.len() / ROW_COLUMNS);
    let count = judged.seconds;
    Worked {
        run: work_seconds(st, run, &inputs[..SECOND_INPUTS * count], count, rows),
        seconds: count,
        ended: judged.ended,
    }
}
