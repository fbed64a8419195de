// Steady seconds: no set changes its mode, so that only the counts of the sets On and the timed modes' counts move. The sets' states
// stand as they were, and what is added to the sets On since stands beside them.
ghost use Rattle.std.specs.Prelude.{◌≡◌};
ghost use Rattle.set_moves.specs.Sized.{Small};
ghost use Rattle.steady.specs.CurveTable.{Tabled};
ghost use Rattle.steady.specs.Steady.{ran_for, since_steady, added_after, Addable, Makeable};

use crate::curve_table::{SetTable, burned_on};
use crate::next_event::waited;
use gensets::share::upto;
use rules::run::SetState;
use rules::station::GenSet;
use set_moves::commands::has_set;
use words::masks::places_of;

// What the seconds of a stretch have added to a set On.
#[derive(Clone, Copy)]
pub(crate) struct Added {
    // in Ws
    pub(crate) energy: u64,
    // in units of 1/3600 mL
    pub(crate) fuel: u64,
}

// What a second adds to the counts of the mask's sets, each at its share of the diesel power. The sets are named for the contract alone:
// what is read of them stands in the table.
pub(crate) fn count_steady(
    sets: [GenSet; 8],
    tables: &[SetTable; 8],
    mask: u32,
    diesel: u32,
    cap: u32,
    added: &mut [Added; 8],
)
    requires { Addable sets mask diesel cap added.old × Tabled sets mask tables.now }
    ensures { added.new ≡ added_after sets mask diesel added.old }
{
    let mut given: u64 = 0;
    for place in places_of(mask) {
        // each less what the sets before it took: rounded alone, the shares would miss the diesel power
        let together = upto(diesel, tables[place].sum as u32, cap);
        let power = together - given;
        given = together;
        let burns = burned_on(&tables[place].lines, power);
        added[place] = Added {
            energy: added[place].energy + power,
            fuel: added[place].fuel + burns,
        };
    }
}

// A set On after some seconds, with what they added.
fn ran_for(state: SetState, seconds: u32, added: Added) -> SetState
    requires { Small (ran_for state seconds added) }
    ensures { result ≡ ran_for state seconds added }
{
    SetState {
        run: state.run + seconds,
        clock: state.clock + seconds,
        energy: state.energy + added.energy,
        fuel: state.fuel + added.fuel,
        ..state
    }
}

// The sets' states after some steady seconds.
pub(crate) fn made(
    states: [SetState; 8],
    mask: u32,
    seconds: u32,
    added: &[Added; 8],
) -> [SetState; 8]
    requires { Makeable states mask seconds added.now }
    ensures { result ≡ since_steady states mask seconds added.now }
{
    let mut out = states;
    for i in 0..8 {
        if has_set(mask, i) {
            out[i] = ran_for(out[i], seconds, added[i]);
        } else {
            out[i] = waited(out[i], seconds);
        }
    }
    out
}
