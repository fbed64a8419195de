// Steps 1, 2 and 10: what is asked of a set's mode and service clock.
ghost use Rattle.std.specs.Prelude.{◌≡◌};
ghost use Rattle.rules.specs.Modes.{is_on, is_off, in_service, due};

use rules::run::{Mode, SetState};
use rules::station::GenSet;

// A set Warming gives no power yet.
pub fn is_on(mode: Mode) -> bool
    ensures { result ≡ is_on mode }
{
    matches!(mode, Mode::On)
}

pub fn is_off(mode: Mode) -> bool
    ensures { result ≡ is_off mode }
{
    matches!(mode, Mode::Off)
}

pub fn in_service(mode: Mode) -> bool
    ensures { result ≡ in_service mode }
{
    matches!(mode, Mode::Service(_))
}

// Whether the set has run its service interval; an interval of 0 is never run.
pub fn is_due(genset: GenSet, state: SetState) -> bool
    ensures { result ≡ due genset state }
{
    (0 < genset.interval) & (genset.interval <= state.clock)
}
