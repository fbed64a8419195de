// The phase that a run comes to, what it wants then, and the room that it asks for.
ghost use Rattle.std.specs.Prelude.{◌≡◌};
ghost use Rattle.run_phases.specs.Phases.{phase_after, phase_for, wants_for, least_room};

use crate::state::{Phase, Wants};
use course::state::Halt;
use rules::limits::LEAST_ROW_BUFFER;

// A buffer that has rows and less room than this is handed over: a turn costs as much for a few seconds as for hundreds.
const FAIR_ROOM: usize = 8192;

// The least room that a turn is to have, where so many bytes are written.
pub fn least_room(written: usize) -> usize
    ensures { result ≡ least_room written }
{
    match written {
        0 => LEAST_ROW_BUFFER,
        _ => FAIR_ROOM,
    }
}

// The phase after its line.
pub fn phase_after(phase: Phase) -> Phase
    ensures { result ≡ phase_after phase }
{
    match phase {
        Phase::Refusal(_) | Phase::Over => Phase::Over,
        Phase::Heading | Phase::Seconds => Phase::Seconds,
        Phase::SetHeading => Phase::SetLine(0),
        Phase::SetLine(place) => Phase::SetLine(place.min(7) + 1),
        Phase::Broken => Phase::Broken,
    }
}

// The phase after some seconds, by what their call ended for.
impl From<Halt> for Phase {
    ghost from_gives = { λ halt phase. phase ≡ phase_for halt };

    fn from(halt: Halt) -> Phase {
        match halt {
            Halt::Further | Halt::Input | Halt::Room => Phase::Seconds,
            Halt::AllWorked => Phase::SetHeading,
            Halt::Broken => Phase::Broken,
        }
    }
}

// What a turn of some seconds ended for, by what their call did.
impl From<Halt> for Wants {
    ghost from_gives = { λ halt wants. wants ≡ wants_for halt };

    fn from(halt: Halt) -> Wants {
        match halt {
            Halt::Input => Wants::Input,
            Halt::Room => Wants::Room,
            Halt::Further | Halt::AllWorked | Halt::Broken => Wants::Further,
        }
    }
}
