// "Share takes station bytes, a mask, a power and a set's number, and answers that set's watts".
ghost use Rattle.std.specs.Prelude.{◌≡◌, true, ◌≤◌};
ghost use Rattle.rules.specs.Answers.{result_of};
ghost use Rattle.rules.specs.Share.{capacity};
ghost use Rattle.rules.specs.StationRecord.{some_file_gives};
ghost use Rattle.rules.specs.Sizing.{share_asked, share_of, share_of_set};

use gensets::share::{capacity, shares, watts_of};
use rules::answers::Refusal;
use rules::station::Station;
use station::reader::read_station;
use words::masks::existing_only;

// 0 for a set that the station or the mask has not.
fn share_of_set(st: Station, mask: u32, power: u32, set: u64) -> u64
    requires { (some_file_gives st ≡ true) × (power ≤ capacity st.sets mask) }
    ensures { result ≡ share_of_set st mask power set }
{
    if set == 0 || (st.setcount as u64) < set {
        return 0;
    }
    let watts = watts_of(shares(st.sets, mask, power));
    let at = (set - 1) as usize;
    watts[at] as u64
}

fn share_of_station(st: Station, mask: u64, power: u64, set: u64) -> Result<u64, Refusal>
    requires { some_file_gives st ≡ true }
    ensures { result_of result ≡ share_of st mask power set }
{
    if !(existing_only(st.setcount, mask) & (0 < mask)) {
        return Err(Refusal::ConfigurationMask(0));
    }
    let named = mask as u32;
    if capacity(st.sets, named) < power {
        return Err(Refusal::OverLimit(0));
    }
    Ok(share_of_set(st, named, power as u32, set))
}

pub(crate) fn share_asked(s: &[u8], mask: u64, power: u64, set: u64) -> Result<u64, Refusal>
    ensures { result_of result ≡ share_asked s.now mask power set }
{
    share_of_station(read_station(s)?, mask, power, set)
}
