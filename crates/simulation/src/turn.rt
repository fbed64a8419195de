// One thing more of a run: a line, some seconds, or what it has to wait for.
ghost use Rattle.std.specs.Prelude.{◌≡◌, ℕ, ◌≤◌, Bool, List, length};
ghost use Rattle.run_phases.specs.declared.state.Phase.{Phase};
ghost use Rattle.simulation.specs.Turns.{Moved};

use crate::line_turn::{in_phase, line_turn};
use crate::seconds_turn::seconds_turn;
use course::state::set_count;
use run_phases::state::{Phase, Turn, Wants};
use station_fields::ranges;

// The next set's line, until the existing sets have theirs.
fn set_turn(t: Turn, place: usize, out: &mut [u8]) -> Turn
    requires { (t.simulation.phase ≡ Phase.SetLine place) × (t.written ≤ length out.old) }
    ensures { (chunk : List ℕ) (ended : Bool) → t.next ≤ length chunk → Moved t chunk ended out.old result out.new }
{
    if place < set_count(t.simulation.course).min(ranges::SETS_MOST) {
        return line_turn(t, out);
    }
    in_phase(t, Phase::Over)
}

// The sets' heading comes once the file has ended. The rest of it is passed by, so that whoever reads it sees all of its bytes.
fn set_heading_turn(t: Turn, end: usize, ended: bool, out: &mut [u8]) -> Turn
    requires { (t.simulation.phase ≡ Phase.SetHeading) × (t.written ≤ length out.old) }
    ensures { (chunk : List ℕ) → end ≡ length chunk → t.next ≤ length chunk → Moved t chunk ended out.old result out.new }
{
    if ended {
        return line_turn(t, out);
    }
    Turn {
        next: end,
        wants: Wants::Input,
        ..t
    }
}

pub(crate) fn turn(t: Turn, chunk: &[u8], ended: bool, out: &mut [u8]) -> Turn
    requires { (t.next ≤ length chunk.now) × (t.written ≤ length out.old) }
    ensures { Moved t chunk.now ended out.old result out.new }
{
    match t.simulation.phase {
        Phase::Refusal(_) | Phase::Heading => line_turn(t, out),
        Phase::Seconds => seconds_turn(t, chunk, ended, out),
        Phase::SetHeading => set_heading_turn(t, chunk.len(), ended, out),
        Phase::SetLine(place) => set_turn(t, place, out),
        Phase::Over | Phase::Broken => Turn {
            wants: Wants::Nothing,
            ..t
        },
    }
}
