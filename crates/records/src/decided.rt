// 24, the decided shed amounts: within their limit, and nothing beyond the delay.
ghost use Rattle.std.specs.Prelude.{◌≡◌, if◌then◌else◌};
ghost use Rattle.rules.specs.RunRecord.{decided_possible};

use rules::limits::MOST_POWER;

fn most_decided(awaited: bool) -> u32
    ensures { result ≡ (if awaited then 50_000_000 else 0) }
{
    if awaited { MOST_POWER } else { 0 }
}

pub(crate) fn decided_possible(delay: usize, decided: [u32; 60]) -> bool
    ensures { result ≡ decided_possible delay decided }
{
    // each is looked at, several at a time: to stop at the first that is not costs more
    let mut possible = true;
    for i in 0..60 {
        possible = possible & (decided[i] <= most_decided(i < delay));
    }
    possible
}
