// THE CALL of a run: some of the sample file in, some of the text out.
ghost use Rattle.simulation.specs.Calls.{Called};

use crate::turn::turn;
use run_phases::state::{Simulation, Turn, Wants};

// Goes on with the chunk from a place on, until it wants input or room or all is handed over. `ended` says that the sample file has
// no byte after the chunk.
pub fn advance(simulation: Simulation, chunk: &[u8], at: usize, ended: bool, out: &mut [u8]) -> Turn
    ensures { Called simulation chunk.now at ended out.old result out.new }
{
    let mut t = Turn {
        simulation,
        next: at.min(chunk.len()),
        written: 0,
        wants: Wants::Further,
    };
    while t.wants == Wants::Further {
        t = turn(t, chunk, ended, out);
    }
    t
}
