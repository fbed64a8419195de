// Which values a station may have: refusals 4 to 8, in the paper's order.
ghost use Rattle.std.specs.Prelude.{◌≡◌, suc, ◌≤◌, take, get_or};
ghost use Rattle.rules.specs.Numbers.{all_to, within};
ghost use Rattle.rules.specs.Answers.{result_of};
ghost use Rattle.rules.specs.StationRecord.{control_right, battery_right, service_right, set_right, pair_right, rises, pairs_right, configuration_right, sets_right, configurations_right, values_right};

use rules::answers::Refusal;
use rules::station::{Battery, Control, GenSet, Station};
use station_fields::battery::{EFFICIENCY, LEAST_CONTENT, MOST_CONTENT, POWER, START_CONTENT};
use station_fields::control::{
    COVERAGE, FILTER_K, MAINTAIN, MINIMUM_LOAD, MINIMUM_SECONDS, SHED, SHED_DELAY, SPINNING,
};
use station_fields::field::Field;
use station_fields::genset::{
    COOL_DOWN, PAIR_LOAD, PAIR_RATE, POINTS, RATING, SERVICE_INTERVAL, SERVICE_TIME, WARM_UP,
};
use station_fields::{layout, ranges};
use words::masks::existing_only;

// A pair's load is held against the next, so the last pair has none.
const RISES: usize = layout::PAIRS - 1;

// Whether a number is in its row's range.
fn within(row: Field, value: u64) -> bool
    ensures { result ≡ within row.least row.most value }
{
    (row.least <= value) & (value <= row.most)
}

// 4
fn control_right(setcount: usize, c: Control) -> bool
    ensures { result ≡ control_right setcount c }
{
    within(SPINNING, c.spinning as u64)
        & within(COVERAGE, c.coverage as u64)
        & within(MINIMUM_LOAD, c.minload as u64)
        & within(SHED, c.shed as u64)
        & within(SHED_DELAY, c.delay as u64)
        & within(FILTER_K, c.k as u64)
        & within(MINIMUM_SECONDS, c.minseconds as u64)
        & within(MAINTAIN, c.maintain as u64)
        & existing_only(setcount, c.online as u64)
}

// 5: the ranges of the least and of the start content follow from the others, and are asked so that each row of the table counts.
fn battery_right(b: Battery) -> bool
    ensures { result ≡ battery_right b }
{
    within(POWER, b.power as u64)
        & within(EFFICIENCY, b.efficiency as u64)
        & (b.least <= b.start)
        & (b.start <= b.most)
        & within(MOST_CONTENT, b.most)
        & (within(LEAST_CONTENT, b.least) & within(START_CONTENT, b.start))
}

// "service time s 1 to 2,592,000, but 0 where the interval is 0"
fn service_right(interval: u32, service: u32) -> bool
    ensures { result ≡ service_right interval service }
{
    let in_range = within(SERVICE_TIME, service as u64);
    if interval == 0 {
        return (service == 0) & in_range;
    }
    (0 < service) & in_range
}

// 6
fn set_right(g: GenSet) -> bool
    ensures { result ≡ set_right g }
{
    within(RATING, g.rating as u64)
        & within(WARM_UP, g.warmup as u64)
        & within(COOL_DOWN, g.cooldown as u64)
        & within(SERVICE_INTERVAL, g.interval as u64)
        & service_right(g.interval, g.service)
        & within(POINTS, g.points as u64)
}

fn pair_right(points: u32, place: u32, load: u32, rate: u32) -> bool
    ensures { result ≡ pair_right points place load rate }
{
    if place < points {
        return within(PAIR_LOAD, load as u64) & within(PAIR_RATE, rate as u64);
    }
    (load == 0) & (rate == 0)
}

fn rises_at(points: u32, place: u32, load: u32, next: u32) -> bool
    requires { place ≤ 4 }
    ensures { result ≡ rises points place load next }
{
    if place + 1 < points {
        return load < next;
    }
    true
}

// The pairs that are used in their ranges, the others zero.
fn pairs_in_range(points: u32, loads: [u32; layout::PAIRS], rates: [u32; layout::PAIRS]) -> bool
    ensures { result ≡ all_to 5 (λ j. pair_right points j (get_or loads j 0) (get_or rates j 0)) }
{
    (0..layout::PAIRS).all(|i| pair_right(points, i as u32, loads[i], rates[i]))
}

fn loads_rise(points: u32, loads: [u32; layout::PAIRS]) -> bool
    ensures { result ≡ all_to 4 (λ j. rises points j (get_or loads j 0) (get_or loads (suc j) 0)) }
{
    (0..RISES).all(|i| rises_at(points, i as u32, loads[i], loads[i + 1]))
}

// 7
fn pairs_right(g: GenSet) -> bool
    ensures { result ≡ pairs_right g }
{
    let loads = g.loads;
    let rates = g.rates;
    pairs_in_range(g.points, loads, rates) & loads_rise(g.points, loads)
}

// 6 and 7 of the first `setcount` sets, set by set; a count past the last set counts to it.
fn sets_right(sets: [GenSet; ranges::SETS_MOST], setcount: usize) -> Result<(), Refusal>
    ensures { result_of result ≡ sets_right 0 (take setcount sets) }
{
    for i in 0..setcount.min(ranges::SETS_MOST) {
        let g = sets[i];
        let numbers = set_right(g);
        let pairs = pairs_right(g);
        if !numbers {
            return Err(Refusal::SetNumber(i as u32 + 1));
        }
        if !pairs {
            return Err(Refusal::SetPairs(i as u32 + 1));
        }
    }
    Ok(())
}

fn configuration_right(setcount: usize, mask: u8) -> bool
    ensures { result ≡ configuration_right setcount mask }
{
    (0 < mask) & existing_only(setcount, mask as u64)
}

// 8 of the first `configcount` configurations; a count past the last counts to it.
fn configurations_right(
    configs: [u8; ranges::CONFIGURATIONS_MOST],
    configcount: usize,
    setcount: usize,
) -> Result<(), Refusal>
    ensures { result_of result ≡ configurations_right setcount 0 (take configcount configs) }
{
    for i in 0..configcount.min(ranges::CONFIGURATIONS_MOST) {
        if !configuration_right(setcount, configs[i]) {
            return Err(Refusal::ConfigurationMask(i as u32 + 1));
        }
    }
    Ok(())
}

// 4 to 8, in their order, of any record.
pub fn values_right(st: Station) -> Result<(), Refusal>
    ensures { result_of result ≡ values_right st }
{
    let setcount = st.setcount;
    let control = st.control;
    if !control_right(setcount, control) {
        return Err(Refusal::ControlValue);
    }
    let battery = st.battery;
    if !battery_right(battery) {
        return Err(Refusal::BatteryValue);
    }
    sets_right(st.sets, setcount)?;
    configurations_right(st.configs, st.configcount, setcount)
}
