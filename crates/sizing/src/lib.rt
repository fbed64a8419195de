#![tactic(auto)]
// The calls of the C sizing screen: plain numbers and byte slices in, an answer by value out. `include/sizing.h` declares them.
ghost use Rattle.std.specs.Prelude.{◌≡◌};
ghost use Rattle.rules.specs.Answers.{result_of};
ghost use Rattle.rules.specs.Sizing.{station_check, sample_check, share_asked, rate_asked};
ghost use Rattle.sizing.specs.Screen.{screen_answer, screen_verdict};

mod fuel;
mod share;

use rules::answers::Refusal;
use samples::check::check_samples;
use station::reader::read_station;
use words::refusals::NumberAndPlace;

// `number` is 0 where `value` is the answer; else it is document 01's refusal, with its `place`.
#[repr(C)]
#[derive(Clone, Copy)]
pub struct SizingAnswer {
    pub number: u64,
    pub place: u64,
    pub value: u64,
}

impl From<Result<u64, Refusal>> for SizingAnswer {
    ghost from_gives = { λ amount told. told ≡ screen_answer (result_of amount) };

    fn from(amount: Result<u64, Refusal>) -> SizingAnswer {
        match amount {
            Ok(value) => SizingAnswer {
                number: 0,
                place: 0,
                value,
            },
            Err(refusal) => {
                let told = NumberAndPlace::from(refusal);
                SizingAnswer {
                    number: told.number,
                    place: told.place,
                    value: 0,
                }
            }
        }
    }
}

// Whether a station file is good.
#[unsafe(no_mangle)]
pub extern "C" fn sizing_check_station(station: &[u8]) -> SizingAnswer
    ensures { result ≡ screen_verdict (station_check station.now) }
{
    read_station(station).and(Ok(0)).into()
}

// Whether a sample file is good.
#[unsafe(no_mangle)]
pub extern "C" fn sizing_check_samples(samples: &[u8]) -> SizingAnswer
    ensures { result ≡ screen_verdict (sample_check samples.now) }
{
    check_samples(samples).and(Ok(0)).into()
}

// The watts that a set takes of a power that the mask's sets share.
#[unsafe(no_mangle)]
pub extern "C" fn sizing_share(station: &[u8], mask: u64, power: u64, set: u64) -> SizingAnswer
    ensures { result ≡ screen_answer (share_asked station.now mask power set) }
{
    share::share_asked(station, mask, power, set).into()
}

// The mL/h that the mask's one set burns at a power.
#[unsafe(no_mangle)]
pub extern "C" fn sizing_fuel_rate(station: &[u8], mask: u64, power: u64) -> SizingAnswer
    ensures { result ≡ screen_answer (rate_asked station.now mask power) }
{
    fuel::rate_asked(station, mask, power).into()
}
