// The inputs of each second, from its number alone: load and solar rise and fall over a station of some 170 kW, with a scatter, so
// that sets start and stop. tests/speed_files.py has the same formulas, for the sheet that the reference is handed.
ghost use Rattle.std.specs.Prelude.{◌*◌, ◌≤◌, length};

use rules::run::Inputs;

// The load goes up and down once in an hour, and the solar in an hour and a half.
const LOAD_PERIOD: u32 = 3_600;

const SOLAR_PERIOD: u32 = 5_400;

// One step of a linear congruence: a number below 65,536 for each number.
fn scattered(number: u32) -> u32
    ensures { result ≤ 65_535 }
{
    ((number % 65_536) * 25_173 + 13_849) % 65_536
}

// Up by 1 a second for half of a period, and down again.
fn wave(at: u32, period: u32) -> u32
    requires { at ≤ period }
    ensures { result ≤ period }
{
    if at < period / 2 { at } else { period - at }
}

// From 4 kW up to some 194 kW.
fn load_of(second: u32) -> u32
    ensures { result ≤ 400_000 }
{
    4_000 + 100 * wave(second % LOAD_PERIOD, LOAD_PERIOD) + scattered(second) % 9_973
}

// A percentage of a power.
fn part_of(power: u32, percent: u32) -> u32
    requires { (power ≤ 400_000) × (percent ≤ 100) }
{
    power * percent / 100
}

// Up to 81 kW, of which clouds leave a part that changes each 8 seconds.
fn solar_of(second: u32) -> u32 {
    let clear = 30 * wave(second % SOLAR_PERIOD, SOLAR_PERIOD);
    part_of(clear, scattered(second / 8) % 101)
}

// Up to 30 % of the load, a part that changes each 16 seconds.
fn sheddable_of(second: u32) -> u32 {
    part_of(load_of(second), scattered(second / 16) % 31)
}

pub(crate) fn inputs_of(second: u32) -> Inputs {
    Inputs {
        load: load_of(second),
        solar: solar_of(second),
        sheddable: sheddable_of(second),
    }
}

// The inputs of `count` seconds from the first on, three numbers for each.
pub(crate) fn put_inputs(first: u32, count: usize, inputs: &mut [u32])
    requires { (count ≤ 384) × (3 * count ≤ length inputs.old) }
{
    for i in 0..count {
        let of_second = inputs_of(first.wrapping_add(i as u32));
        let at = 3 * i;
        inputs[at] = of_second.load;
        inputs[at + 1] = of_second.solar;
        inputs[at + 2] = of_second.sheddable;
    }
}
