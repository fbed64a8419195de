// The station totals: each second's watts are added to them.
ghost use Rattle.std.specs.Prelude.{◌≡◌, ◌+◌};
ghost use Rattle.set_moves.specs.InType.{in64};
ghost use Rattle.moments.specs.Totals.{plus_in};

use rules::run::{Totals, Watts};

// A total with a second's watts.
fn more(total: u64, watts: u32) -> u64
    ensures { result ≡ in64 (total + watts) }
{
    total.wrapping_add(watts as u64)
}

pub(crate) fn plus(totals: Totals, watts: Watts) -> Totals
    ensures { result ≡ plus_in totals watts }
{
    Totals {
        offered: more(totals.offered, watts.offered),
        load: more(totals.load, watts.load),
        shed: more(totals.shed, watts.shed),
        solar: more(totals.solar, watts.solar),
        charge: more(totals.charge, watts.charge),
        spill: more(totals.spill, watts.spill),
        give: more(totals.give, watts.give),
        diesel: more(totals.diesel, watts.diesel),
        unserved: more(totals.unserved, watts.unserved),
    }
}
