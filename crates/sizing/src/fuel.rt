// "fuel rate takes the first three, with a mask of one set".
ghost use Rattle.std.specs.Prelude.{◌≡◌, true};
ghost use Rattle.rules.specs.Answers.{result_of};
ghost use Rattle.rules.specs.StationRecord.{some_file_gives};
ghost use Rattle.rules.specs.Sizing.{rate_asked, rate_of};
ghost use Rattle.rules.proofs.Shapes.{Shaped};

use gensets::fuel::fuel_rate;
use gensets::share::capacity;
use rules::answers::Refusal;
use rules::station::Station;
use station::reader::read_station;
use words::masks::{existing_only, next_set};

fn rate_of_station(st: Station, mask: u64, power: u64) -> Result<u64, Refusal>
    requires { (some_file_gives st ≡ true) × Shaped st }
    ensures { result_of result ≡ rate_of st mask power }
{
    if !(existing_only(st.setcount, mask) & (mask.count_ones() == 1)) {
        return Err(Refusal::ConfigurationMask(0));
    }
    let named = mask as u32;
    if capacity(st.sets, named) < power {
        return Err(Refusal::OverLimit(0));
    }
    let at = next_set(named, 0) as usize;
    let rate = fuel_rate(st.sets[at], power as u32);
    // never refused: a set of a file has a rate at every power up to its rating
    rate.or(Err(Refusal::OverLimit(0)))
}

pub(crate) fn rate_asked(s: &[u8], mask: u64, power: u64) -> Result<u64, Refusal>
    ensures { result_of result ≡ rate_asked s.now mask power }
{
    rate_of_station(read_station(s)?, mask, power)
}
