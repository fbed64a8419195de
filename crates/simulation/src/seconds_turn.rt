// Some seconds of the course, as many as the buffer has room for, and their rows as text.
ghost use Rattle.std.specs.Prelude.{◌≡◌, ◌+◌, ◌*◌, ◌≤◌, ◌<◌, length};
ghost use Rattle.run_phases.specs.declared.state.Phase.{Phase};
ghost use Rattle.simulation.specs.Turns.{SomeAsked, Moved};

use crate::line_turn::in_phase;
use course::state::seconds_to_work;
use course_work::work::{MOST_BATCH, work};
use row_texts::put_rows::put_rows;
use rules::limits::{LEAST_ROW_BUFFER, ROW_COLUMNS};
use run_phases::phases::least_room;
use run_phases::state::{Phase, Simulation, Turn, Wants};

// The numbers of the rows of one turn.
const MOST_NUMBERS: usize = ROW_COLUMNS * MOST_BATCH;

// "row buffer under 256 bytes", and no row needs more than 153 bytes of them.
const MOST_ROW: usize = 153;

// As many seconds as the lent rows have places for, and the text of their rows into the buffer's tail.
fn some_rows(t: Turn, chunk: &[u8], ended: bool, rows: &mut [u64], out: &mut [u8]) -> Turn
    requires { (t.written ≤ length out.old) × SomeAsked t chunk.now rows.old out.old }
    ensures { Moved t chunk.now ended out.old result out.new }
{
    let moved = work(t.simulation.course, chunk, t.next, ended, rows);
    let numbers = ROW_COLUMNS * moved.seconds;
    let at = t.written;
    let put = put_rows(&rows[..numbers], &mut out[at..]);
    Turn {
        simulation: Simulation {
            phase: Phase::from(moved.halt),
            course: moved.course,
        },
        next: moved.next,
        written: at + put.bytes,
        wants: Wants::from(moved.halt),
    }
}

pub(crate) fn seconds_turn(t: Turn, chunk: &[u8], ended: bool, out: &mut [u8]) -> Turn
    requires { (t.simulation.phase ≡ Phase.Seconds) × (t.next ≤ length chunk.now) × (t.written ≤ length out.old) }
    ensures { Moved t chunk.now ended out.old result out.new }
{
    let left = seconds_to_work(t.simulation.course);
    if left == 0 {
        return in_phase(t, Phase::SetHeading);
    }
    let room = out.len() - t.written;
    if room < least_room(t.written) {
        return Turn {
            wants: Wants::Room,
            ..t
        };
    }
    let want = (left as usize)
        .min(MOST_BATCH)
        .min((room - (LEAST_ROW_BUFFER - MOST_ROW)) / MOST_ROW);
    let mut rows = [0u64; MOST_NUMBERS];
    let numbers = ROW_COLUMNS * want;
    some_rows(t, chunk, ended, &mut rows[..numbers], out)
}
