// The state of a run between two calls, by value.
ghost use Rattle.std.specs.Prelude.{◌≡◌};

use course::state::{Course, seconds_to_work, seconds_worked};
use rules::answers::Refusal;

// What is to be handed over next.
#[derive(Clone, Copy)]
pub enum Phase {
    // a refusal's line, and nothing else
    Refusal(Refusal),
    Heading,
    // the rows of the seconds that are left
    Seconds,
    // the sets' heading, once the sample file has come to its end
    SetHeading,
    // the line of the set at this place, and of those after it
    SetLine(usize),
    // nothing: all is handed over
    Over,
    // nothing: the samples were not those that were checked
    Broken,
}

#[derive(Clone, Copy)]
pub struct Simulation {
    pub phase: Phase,
    pub course: Course,
}

// What a call ended for.
#[derive(Clone, Copy)]
pub enum Wants {
    // inside a call alone: it goes on
    Further,
    // the next bytes of the sample file
    Input,
    // a buffer of at least 256 bytes
    Room,
    // no further call
    Nothing,
}

// Where a call stands: the chunk is to be read on at `next`, and `written` bytes of the lent buffer are to be written out.
#[derive(Clone, Copy)]
pub struct Turn {
    pub simulation: Simulation,
    pub next: usize,
    pub written: usize,
    pub wants: Wants,
}

// What a run is to hand over next.
pub fn phase_of(simulation: Simulation) -> Phase
    ensures { result ≡ simulation.phase }
{
    simulation.phase
}

// How many seconds are still to be worked.
pub fn seconds_left(simulation: Simulation) -> u32
    ensures { result ≡ simulation.course.left }
{
    seconds_to_work(simulation.course)
}

// How many seconds are worked.
pub fn seconds_done(simulation: Simulation) -> u32
    ensures { result ≡ simulation.course.run.done }
{
    seconds_worked(simulation.course)
}
