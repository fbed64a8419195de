// The station's record of a case.
ghost use Rattle.std.specs.Prelude.{◌+◌, ◌≤◌};

use crate::case::Case;
use rules::station::{Battery, Control, GenSet, Station};
use std::array::from_fn;

// Where a case has them: the control's numbers, the battery's, 8 sets of 16, and 64 masks.
const CONTROL: usize = 2;

const BATTERY: usize = 11;

const SETS: usize = 16;

const MASKS: usize = 144;

fn control_in(case: &Case) -> Control {
    Control {
        spinning: case.narrow(CONTROL),
        coverage: case.narrow(CONTROL + 1),
        minload: case.narrow(CONTROL + 2),
        shed: case.narrow(CONTROL + 3),
        delay: case.narrow(CONTROL + 4),
        k: case.narrow(CONTROL + 5),
        minseconds: case.narrow(CONTROL + 6),
        maintain: case.narrow(CONTROL + 7),
        online: case.narrow(CONTROL + 8),
    }
}

fn battery_in(case: &Case) -> Battery {
    Battery {
        power: case.narrow(BATTERY),
        efficiency: case.narrow(BATTERY + 1),
        least: case.long(BATTERY + 2),
        most: case.long(BATTERY + 3),
        start: case.long(BATTERY + 4),
    }
}

// Every second number from one on: a set's loads, or its rates.
fn five_in(case: &Case, at: usize) -> [u32; 5]
    requires { at + 9 ≤ 351 }
{
    [
        case.narrow(at),
        case.narrow(at + 2),
        case.narrow(at + 4),
        case.narrow(at + 6),
        case.narrow(at + 8),
    ]
}

fn set_in(case: &Case, at: usize) -> GenSet
    requires { at + 16 ≤ 351 }
{
    let loads = five_in(case, at + 6);
    let rates = five_in(case, at + 7);
    GenSet {
        rating: case.narrow(at),
        warmup: case.narrow(at + 1),
        cooldown: case.narrow(at + 2),
        interval: case.narrow(at + 3),
        service: case.narrow(at + 4),
        points: case.narrow(at + 5),
        loads,
        rates,
    }
}

fn sets_in(case: &Case) -> [GenSet; 8] {
    from_fn(|i| set_in(case, SETS + 16 * i))
}

fn masks_in(case: &Case) -> [u8; 64] {
    from_fn(|i| (case.narrow(MASKS + i) % 256) as u8)
}

pub(crate) fn station_in(case: &Case) -> Station {
    let control = control_in(case);
    let battery = battery_in(case);
    let sets = sets_in(case);
    let configs = masks_in(case);
    Station {
        control,
        battery,
        setcount: case.narrow(0) as usize,
        configcount: case.narrow(1) as usize,
        sets,
        configs,
    }
}
