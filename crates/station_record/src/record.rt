// 25: whether some file gives a record.
ghost use Rattle.std.specs.Prelude.{◌≡◌, drop};
ghost use Rattle.rules.specs.Numbers.{every, all_zero};
ghost use Rattle.rules.specs.StationRecord.{set_unused, some_file_gives};

use crate::values::values_right;
use rules::station::{GenSet, Station};
use station_fields::{layout, ranges};

fn pairs_unused(numbers: [u32; layout::PAIRS]) -> bool
    ensures { result ≡ all_zero numbers }
{
    numbers.iter().all(|number| *number == 0)
}

fn set_unused(g: GenSet) -> bool
    ensures { result ≡ set_unused g }
{
    let loads = g.loads;
    let rates = g.rates;
    (g.rating == 0)
        & (g.warmup == 0)
        & (g.cooldown == 0)
        & (g.interval == 0)
        & (g.service == 0)
        & (g.points == 0)
        & pairs_unused(loads)
        & pairs_unused(rates)
}

fn sets_unused(sets: [GenSet; ranges::SETS_MOST], from: usize) -> bool
    ensures { result ≡ every set_unused (drop from sets) }
{
    sets.iter().skip(from).all(|set| set_unused(*set))
}

fn configurations_unused(configs: [u8; ranges::CONFIGURATIONS_MOST], from: usize) -> bool
    ensures { result ≡ all_zero (drop from configs) }
{
    // each is looked at, several at a time: to stop at the first that is not costs more
    let mut unused = true;
    for i in from..ranges::CONFIGURATIONS_MOST {
        unused = unused & (configs[i] == 0);
    }
    unused
}

pub fn some_file_gives(st: Station) -> bool
    ensures { result ≡ some_file_gives st }
{
    let setcount = st.setcount;
    let configcount = st.configcount;
    if !(((ranges::SETS_LEAST <= setcount) & (setcount <= ranges::SETS_MOST))
        & ((ranges::CONFIGURATIONS_LEAST <= configcount)
            & (configcount <= ranges::CONFIGURATIONS_MOST)))
    {
        return false;
    }
    if values_right(st).is_err() {
        return false;
    }
    let sets = st.sets;
    let configs = st.configs;
    sets_unused(sets, setcount) & configurations_unused(configs, configcount)
}
