// "Seconds asked are 1 to 9 digits, else 18; over 316,224,000 gives 23; both .. place 0."
ghost use Rattle.std.specs.Prelude.{◌≡◌};
ghost use Rattle.rules.specs.Answers.{result_of};
ghost use Rattle.rules.specs.Run.{seconds_asked};

use rules::answers::Refusal;
use rules::limits::MOST_SECONDS;
use sheet::numbers::{CellFault, time};

pub fn seconds_asked(bytes: &[u8]) -> Result<u64, Refusal>
    ensures { result_of result ≡ seconds_asked bytes.now }
{
    match time(MOST_SECONDS, bytes) {
        Ok(seconds) => Ok(u64::from(seconds)),
        Err(CellFault::Malformed) => Err(Refusal::Malformed(0)),
        Err(CellFault::OverLimit) => Err(Refusal::RunEnded),
    }
}
