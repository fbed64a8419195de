// 24, the station totals.
ghost use Rattle.std.specs.Prelude.{◌≡◌};
ghost use Rattle.rules.specs.RunRecord.{totals_possible};

use rules::run::Totals;

pub(crate) fn totals_possible(totals: Totals, most: u64) -> bool
    ensures { result ≡ totals_possible totals most }
{
    (totals.offered <= most)
        & (totals.load <= most)
        & (totals.shed <= most)
        & (totals.solar <= most)
        & (totals.charge <= most)
        & (totals.spill <= most)
        & (totals.give <= most)
        & (totals.diesel <= most)
        & (totals.unserved <= most)
}
