// "A run record is possible when" (24).
ghost use Rattle.std.specs.Prelude.{◌≡◌};
ghost use Rattle.rules.specs.RunRecord.{possible};

use crate::decided::decided_possible;
use crate::states::states_possible;
use crate::totals::totals_possible;
use rules::limits::{MOST_POWER, MOST_SECONDS};
use rules::run::Run;
use rules::station::Station;

pub fn possible(st: Station, run: Run) -> bool
    ensures { result ≡ possible st run }
{
    let done = run.done;
    // asked first: beyond it the products of the limits could wrap
    if MOST_SECONDS < done {
        return false;
    }
    let most = (MOST_POWER as u64) * (done as u64);
    ((st.battery.least <= run.store) & (run.store <= st.battery.most))
        & (run.called <= st.configcount)
        & (run.since <= done)
        & states_possible(st.setcount, st.sets, run.sets, done)
        & totals_possible(run.totals, most)
        & decided_possible(st.control.delay as usize, run.decided)
}
