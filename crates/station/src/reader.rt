// The station file: its bytes become a record, or the first refusal.
ghost use Rattle.std.specs.Prelude.{◌≡◌};
ghost use Rattle.rules.specs.Answers.{result_of};
ghost use Rattle.rules.specs.StationRecord.{no_station, values_right};
ghost use Rattle.rules.specs.StationFile.{station_file};

use crate::bodies::{no_set, record_of};
use crate::contents::contents_right;
use rules::answers::Refusal;
use rules::station::{Battery, Control, Station};
use station_fields::ranges;
use station_record::values::values_right;

pub fn no_station() -> Station
    ensures { result ≡ no_station }
{
    let control = Control {
        spinning: 0,
        coverage: 0,
        minload: 0,
        shed: 0,
        delay: 0,
        k: 0,
        minseconds: 0,
        maintain: 0,
        online: 0,
    };
    let battery = Battery {
        power: 0,
        efficiency: 0,
        least: 0,
        most: 0,
        start: 0,
    };
    let none = no_set();
    Station {
        control,
        battery,
        setcount: 0,
        configcount: 0,
        sets: [none; ranges::SETS_MOST],
        configs: [0; ranges::CONFIGURATIONS_MOST],
    }
}

// Apart, so that the checks read the record where it is.
#[inline(never)]
fn record_right(station: Station) -> Result<(), Refusal>
    ensures { result_of result ≡ values_right station }
{
    values_right(station)
}

// The record that a file gives, or the first refusal.
pub fn read_station(s: &[u8]) -> Result<Station, Refusal>
    ensures { result_of result ≡ station_file s.now }
{
    contents_right(s)?;
    let station = record_of(s);
    record_right(station)?;
    Ok(station)
}
