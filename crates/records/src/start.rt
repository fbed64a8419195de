// "At the start": the record of a run before its first second.
ghost use Rattle.std.specs.Prelude.{◌≡◌, ◌<◌, if◌then◌else◌};
ghost use Rattle.rules.specs.declared.run.Mode.TheVariants.{Off, On};
ghost use Rattle.rules.specs.Numbers.{has, tab};
ghost use Rattle.rules.specs.Answers.{judged, value_or, result_of};
ghost use Rattle.rules.specs.Modes.{fresh};
ghost use Rattle.rules.specs.RunRecord.{start};
ghost use Rattle.records.specs.NoRun.{at_start, no_run};

use rules::answers::Refusal;
use rules::run::{ByFlow, Mode, Run, SetState};
use rules::station::Station;
use station_record::record::some_file_gives;
use std::array::from_fn;

// The verdict on a station record, and the record that its run starts with; where it is refused, the record of zeros.
#[derive(Clone, Copy)]
pub struct Started {
    pub verdict: Result<(), Refusal>,
    pub run: Run,
}

fn fresh(mode: Mode) -> SetState
    ensures { result ≡ fresh mode }
{
    SetState {
        mode,
        run: 0,
        clock: 0,
        starts: 0,
        stops: 0,
        energy: 0,
        fuel: 0,
    }
}

// "named sets On, others Off"
fn mode_at_start(online: u32, place: usize) -> Mode
    requires { place < 8 }
    ensures { result ≡ (if has online place then On else Off) }
{
    if (online >> place) % 2 == 1 {
        Mode::On
    } else {
        Mode::Off
    }
}

fn states_at_start(online: u32) -> [SetState; 8]
    ensures { result ≡ tab 8 (λ i. fresh (if has online i then On else Off)) }
{
    from_fn(|place| fresh(mode_at_start(online, place)))
}

fn at_start(store: u64, sets: [SetState; 8]) -> Run
    ensures { result ≡ at_start store sets }
{
    let totals = ByFlow {
        offered: 0,
        load: 0,
        shed: 0,
        solar: 0,
        charge: 0,
        spill: 0,
        give: 0,
        diesel: 0,
        unserved: 0,
    };
    Run {
        done: 0,
        since: 0,
        called: 0,
        store,
        setpoint: None,
        sets,
        decided: [0; 60],
        totals,
    }
}

fn no_run() -> Run
    ensures { result ≡ no_run }
{
    at_start(0, [fresh(Mode::Off); 8])
}

pub fn start(st: Station) -> Started
    ensures verdict_value { result_of result.verdict ≡ judged (start st) }
    ensures run_value { result.run ≡ value_or no_run (start st) }
{
    if !some_file_gives(st) {
        return Started {
            verdict: Err(Refusal::StationRecord),
            run: no_run(),
        };
    }
    Started {
        verdict: Ok(()),
        run: at_start(st.battery.start, states_at_start(st.control.online)),
    }
}
