// The record that the bodies of a file give, whatever the file has not being zero.
ghost use Rattle.std.specs.Prelude.{◌≡◌, [], ◌∷◌, ◌++◌, ◌+◌, ◌-◌, ◌*◌, ◌≤◌, length, drop, replicate};
ghost use Rattle.rules.specs.Answers.{accepted};
ghost use Rattle.rules.specs.Bytes.{little, littles};
ghost use Rattle.rules.specs.StationRecord.{no_set};
ghost use Rattle.rules.specs.StationFile.{control_of, battery_of, set_of, sets_of, record_of, contents_right};

use crate::contents::count_at;
use crate::numbers::{field_at, word_at};
use rules::station::{Battery, Control, GenSet, Station};
use station_fields::battery::{EFFICIENCY, LEAST_CONTENT, MOST_CONTENT, POWER, START_CONTENT};
use station_fields::control::{
    COVERAGE, FILTER_K, MAINTAIN, MINIMUM_LOAD, MINIMUM_SECONDS, ON_LINE, SHED, SHED_DELAY,
    SPINNING,
};
use station_fields::field::Field;
use station_fields::genset::{
    COOL_DOWN, PAIR_LOAD, PAIR_RATE, POINTS, RATING, SERVICE_INTERVAL, SERVICE_TIME, WARM_UP,
};
use station_fields::{layout, ranges};

fn control_of(s: &[u8]) -> Control
    requires { 165 ≤ length s.now }
    ensures { result ≡ control_of (littles 4 9 (drop 32 s.now)) }
{
    Control {
        spinning: word_at(s, layout::CONTROL_AT, SPINNING),
        coverage: word_at(s, layout::CONTROL_AT, COVERAGE),
        minload: word_at(s, layout::CONTROL_AT, MINIMUM_LOAD),
        shed: word_at(s, layout::CONTROL_AT, SHED),
        delay: word_at(s, layout::CONTROL_AT, SHED_DELAY),
        k: word_at(s, layout::CONTROL_AT, FILTER_K),
        minseconds: word_at(s, layout::CONTROL_AT, MINIMUM_SECONDS),
        maintain: word_at(s, layout::CONTROL_AT, MAINTAIN),
        online: word_at(s, layout::CONTROL_AT, ON_LINE),
    }
}

fn battery_of(s: &[u8]) -> Battery
    requires { 165 ≤ length s.now }
    ensures { result ≡ battery_of (littles 4 2 (drop 68 s.now)) (littles 8 3 (drop 76 s.now)) }
{
    Battery {
        power: word_at(s, layout::BATTERY_AT, POWER),
        efficiency: word_at(s, layout::BATTERY_AT, EFFICIENCY),
        least: field_at(s, layout::BATTERY_AT, LEAST_CONTENT),
        most: field_at(s, layout::BATTERY_AT, MOST_CONTENT),
        start: field_at(s, layout::BATTERY_AT, START_CONTENT),
    }
}

// The row's number of the first pair, and of each other pair, of the pairs that start at a place.
fn pairs_from(s: &[u8], pairs: usize, row: Field) -> [u32; layout::PAIRS]
    requires { (pairs + row.offset + 32 + row.width ≤ length s.now) × (row.width ≡ 4) }
    ensures { result ≡ little row.width (drop (pairs + row.offset) s.now) ∷ little row.width (drop (pairs + 8 + row.offset) s.now) ∷ little row.width (drop (pairs + 16 + row.offset) s.now) ∷ little row.width (drop (pairs + 24 + row.offset) s.now) ∷ little row.width (drop (pairs + 32 + row.offset) s.now) ∷ [] }
{
    [
        word_at(s, pairs, row),
        word_at(s, pairs + layout::PAIR_SIZE, row),
        word_at(s, pairs + 2 * layout::PAIR_SIZE, row),
        word_at(s, pairs + 3 * layout::PAIR_SIZE, row),
        word_at(s, pairs + 4 * layout::PAIR_SIZE, row),
    ]
}

fn set_of(s: &[u8], at: usize) -> GenSet
    requires { at + 64 ≤ length s.now }
    ensures { result ≡ set_of (littles 4 16 (drop at s.now)) }
{
    let pairs = at + layout::PAIRS_OFFSET;
    GenSet {
        rating: word_at(s, at, RATING),
        warmup: word_at(s, at, WARM_UP),
        cooldown: word_at(s, at, COOL_DOWN),
        interval: word_at(s, at, SERVICE_INTERVAL),
        service: word_at(s, at, SERVICE_TIME),
        points: word_at(s, at, POINTS),
        loads: pairs_from(s, pairs, PAIR_LOAD),
        rates: pairs_from(s, pairs, PAIR_RATE),
    }
}

pub(crate) fn no_set() -> GenSet
    ensures { result ≡ no_set }
{
    GenSet {
        rating: 0,
        warmup: 0,
        cooldown: 0,
        interval: 0,
        service: 0,
        points: 0,
        loads: [0; layout::PAIRS],
        rates: [0; layout::PAIRS],
    }
}

fn sets_of(s: &[u8], setcount: usize) -> [GenSet; ranges::SETS_MOST]
    requires { (setcount ≤ 8) × (100 + 64 * setcount ≤ length s.now) }
    ensures { result ≡ sets_of setcount (drop 100 s.now) ++ replicate (8 - setcount) no_set }
{
    let none = no_set();
    let mut sets = [none; ranges::SETS_MOST];
    for i in 0..setcount {
        sets[i] = set_of(s, layout::SETS_AT + layout::SET_SIZE * i);
    }
    sets
}

fn configurations_of(s: &[u8], at: usize, configcount: usize) -> [u8; ranges::CONFIGURATIONS_MOST]
    requires { (configcount ≤ 64) × (at + configcount ≤ length s.now) }
    ensures { result ≡ littles 1 configcount (drop at s.now) ++ replicate (64 - configcount) 0 }
{
    let mut configs = [0u8; ranges::CONFIGURATIONS_MOST];
    let end = at + layout::CONFIGURATION_SIZE * configcount;
    configs[..configcount].copy_from_slice(&s[at..end]);
    configs
}

pub(crate) fn record_of(s: &[u8]) -> Station
    requires { contents_right s.now ≡ accepted tt }
    ensures { result ≡ record_of s.now }
{
    let setcount = count_at(s, layout::SETS_ENTRY) as usize;
    let configcount = count_at(s, layout::CONFIGURATIONS_ENTRY) as usize;
    let control = control_of(s);
    let battery = battery_of(s);
    let sets = sets_of(s, setcount);
    let configs = configurations_of(
        s,
        layout::SETS_AT + layout::SET_SIZE * setcount,
        configcount,
    );
    Station {
        control,
        battery,
        setcount,
        configcount,
        sets,
        configs,
    }
}
