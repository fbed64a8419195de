// The sink of single lines: a heading, a set's line or a refusal's.
ghost use Rattle.std.specs.Prelude.{◌≡◌, ◌≤◌, [], length};
ghost use Rattle.rows.specs.Written.{TextPut};
ghost use Rattle.run_phases.specs.declared.state.Wants.{Wants};
ghost use Rattle.run_texts.specs.Text.{line_of, set_line_at, with_phase};
ghost use Rattle.simulation.specs.Turns.{LineMoved};

use course::state::set_states;
use rows::run_lines::{put_refused, put_row_heading, put_set_heading, put_set_line};
use rules::answers::Refusal;
use rules::limits::LEAST_ROW_BUFFER;
use rules::run::SetState;
use run_phases::phases::phase_after;
use run_phases::state::{Phase, Simulation, Turn, Wants};

// No line, where one would have room.
fn put_nothing(tail: &mut [u8]) -> Result<usize, Refusal>
    ensures { TextPut [] tail.old result tail.new }
{
    if tail.len() < LEAST_ROW_BUFFER {
        return Err(Refusal::RowBuffer);
    }
    Ok(0)
}

fn put_set(states: [SetState; 8], place: usize, tail: &mut [u8]) -> Result<usize, Refusal>
    ensures { TextPut (set_line_at states place) tail.old result tail.new }
{
    match states.get(place) {
        Some(state) => put_set_line((place + 1) as u32, *state, tail),
        None => put_nothing(tail),
    }
}

// The line that a phase has, at the front of the buffer's tail.
#[tactic(auto, unfolding(run_texts::specs::Text::line_of))]
fn put_line_of(phase: Phase, states: [SetState; 8], tail: &mut [u8]) -> Result<usize, Refusal>
    ensures { TextPut (line_of phase states) tail.old result tail.new }
{
    match phase {
        Phase::Refusal(refusal) => put_refused(refusal, tail),
        Phase::Heading => put_row_heading(tail),
        Phase::SetHeading => put_set_heading(tail),
        Phase::SetLine(place) => put_set(states, place, tail),
        Phase::Seconds | Phase::Over | Phase::Broken => put_nothing(tail),
    }
}

// A turn that hands nothing over, and goes on in another phase.
pub(crate) fn in_phase(t: Turn, phase: Phase) -> Turn
    ensures { result ≡ record { simulation = with_phase t.simulation phase; next = t.next; written = t.written; wants = Wants.Further } }
{
    Turn {
        simulation: Simulation {
            phase,
            ..t.simulation
        },
        wants: Wants::Further,
        ..t
    }
}

// The line of the phase, where the buffer has room for it.
pub(crate) fn line_turn(t: Turn, out: &mut [u8]) -> Turn
    requires { t.written ≤ length out.old }
    ensures { LineMoved t out.old result out.new }
{
    let phase = t.simulation.phase;
    let states = set_states(t.simulation.course);
    let at = t.written;
    match put_line_of(phase, states, &mut out[at..]) {
        Ok(size) => Turn {
            written: at + size,
            ..in_phase(t, phase_after(phase))
        },
        Err(_) => Turn {
            wants: Wants::Room,
            ..t
        },
    }
}
