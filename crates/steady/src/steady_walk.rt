// Steady seconds one after the other, up to the first that calls other sets.
ghost use Rattle.rules.specs.Seconds.{inputs_each};
ghost use Rattle.commitment.specs.Choice.{Rated};
ghost use Rattle.moments.specs.Parts.{run_of};
ghost use Rattle.steady.specs.CurveTable.{Tabled};
ghost use Rattle.steady.specs.Steady.{since_steady};
ghost use Rattle.steady.specs.SteadySecond.{Walkable, Walks};

use crate::curve_table::SetTable;
use crate::steady_counts::Added;
use crate::steady_step::{Standing, Steady, steady_step};
use admission::inputs::first_inputs;
use commitment::configuration::mask_called;
use moments::parts::Moment;
use rows::row_numbers::put_row_numbers;
use rules::limits::{ROW_COLUMNS, SECOND_INPUTS};
use rules::station::Station;

pub(crate) fn steady_walk(
    st: Station,
    caps: &[u32; 64],
    steady: &Steady,
    tables: &[SetTable; 8],
    from: Moment,
    inputs: &[u32],
    decided: &mut [u32],
    added: &mut [Added; 8],
    rows: &mut [u64],
) -> Standing
    requires { Walkable st steady.now from inputs.now decided.old added.old rows.old × Rated st.sets st.configs caps.now × Tabled st.sets steady.now.on tables.now }
    ensures { Walks st steady.now (run_of from (since_steady steady.now.states steady.now.on 0 added.old) decided.old) (inputs_each inputs.now) rows.old result.moment result.ran added.new decided.new rows.new }
{
    // copied once: the table is read at each second by a number that is not known before
    let configs = st.configs;
    let count = inputs.len() / SECOND_INPUTS;
    let mut moment = from;
    for ran in 0..count {
        let x = first_inputs(&inputs[SECOND_INPUTS * ran..]);
        let at = Standing { moment, ran };
        let gone = steady_step(st, caps, steady, tables, at, x, decided, added);
        moment = gone.moment;
        put_row_numbers(gone.row, &mut rows[ROW_COLUMNS * ran..]);
        if mask_called(configs, moment.called) != steady.called {
            return Standing {
                moment,
                ran: ran + 1,
            };
        }
    }
    Standing { moment, ran: count }
}
