// Step 9: the reserve, what is wanted of the sets, and the setpoint's filter.
ghost use Rattle.std.specs.Prelude.{◌≡◌};
ghost use Rattle.rules.specs.Setpoint.{coverage_of, reserve, wanted_for, filter_of, filtered, held_after};

use rules::run::Filter;
use rules::station::Control;

fn coverage_of(control: Control, solar: u32) -> u64
    ensures { result ≡ coverage_of control solar }
{
    ((solar as u64) * (control.coverage as u64) + 99) / 100
}

fn reserve(control: Control, solar: u32, live: u64) -> u64
    ensures { result ≡ reserve control solar live }
{
    let spinning = control.spinning as u64;
    let coverage = coverage_of(control, solar);
    if control.maintain == 1 {
        return spinning.max(coverage.saturating_sub(live));
    }
    spinning.max(coverage).saturating_sub(live)
}

// What is wanted of the sets, in W.
pub fn wanted_for(control: Control, rest: u32, solar: u32, off: u32, sheddable: u32) -> u64
    ensures { result ≡ wanted_for control rest solar off sheddable }
{
    let live = sheddable.saturating_sub(off) as u64;
    (rest as u64) + reserve(control, solar, live)
}

fn filter_of(k: u32, held: f64) -> Filter
    ensures { result ≡ filter_of k held }
{
    let rest = 1000u64.saturating_sub(k as u64);
    Filter {
        oldweight: k as f64 / 1000.0,
        newweight: rest as f64 / 1000.0,
        held,
    }
}

fn filtered(f: Filter, wanted: f64) -> Filter
    ensures { result ≡ filtered f wanted }
{
    Filter {
        held: f.held * f.oldweight + wanted * f.newweight,
        ..f
    }
}

// The held setpoint after a second in which so much is wanted, in W: what is wanted of numbers that no file gives may be beyond the
// whole numbers of a double.
pub fn held_after(k: u32, setpoint: Option<f64>, wanted: u64) -> f64
    ensures { result ≡ held_after k setpoint wanted }
{
    let asked = std::num::nearest_u64_to_f64(wanted);
    match setpoint {
        None => asked,
        Some(held) => filtered(filter_of(k, held), asked).held,
    }
}
