// The course of a run between two calls, by value.
ghost use Rattle.std.specs.Prelude.{◌≡◌};
ghost use Rattle.course.specs.Halts.{halt_for};

use input_source::source::InputSource;
use rules::answers::Ended;
use rules::run::{Run, SetState};
use rules::station::Station;

#[derive(Clone, Copy)]
pub struct Course {
    pub station: Station,
    pub run: Run,
    pub source: InputSource,
    // seconds still to be worked
    pub left: u32,
}

// What a call ended for.
#[derive(Clone, Copy)]
pub enum Halt {
    // it came nearer to the last second, and may be called again
    Further,
    // the next bytes of the sample file
    Input,
    // a place for a row
    Room,
    // no second was left
    AllWorked,
    // nothing: the samples are not those that were checked
    Broken,
}

// Where a call ends: the chunk is to be read on at `next`, and the rows of so many seconds stand in the lent numbers.
#[derive(Clone, Copy)]
pub struct Moved {
    pub course: Course,
    pub next: usize,
    pub seconds: usize,
    pub halt: Halt,
}

// The run goes on after seconds that were all worked, and breaks off where one was refused.
impl From<Ended> for Halt {
    ghost from_gives = { λ ended halt. halt ≡ halt_for ended };

    fn from(ended: Ended) -> Halt {
        match ended {
            Ended::AllWorked | Ended::NoRoom => Halt::Further,
            Ended::BeforeRefused => Halt::Broken,
        }
    }
}

// How many sets the station has.
pub fn set_count(course: Course) -> usize
    ensures { result ≡ course.station.setcount }
{
    course.station.setcount
}

// The sets as the seconds worked have left them.
pub fn set_states(course: Course) -> [SetState; 8]
    ensures { result ≡ course.run.sets }
{
    course.run.sets
}

// How many seconds are still to be worked.
pub fn seconds_to_work(course: Course) -> u32
    ensures { result ≡ course.left }
{
    course.left
}

// How many seconds are worked.
pub fn seconds_worked(course: Course) -> u32
    ensures { result ≡ course.run.done }
{
    course.run.done
}
