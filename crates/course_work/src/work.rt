// Some seconds: their inputs from the source, as many as the chunk tells and the lent rows have places for, and their rows.
ghost use Rattle.std.specs.Prelude.{◌≡◌, ◌≤◌, ◌*◌, length, take};
ghost use Rattle.rules.specs.Seconds.{inputs_each};
ghost use Rattle.held_inputs.specs.Filling.{inputs_in};
ghost use Rattle.course_work.specs.Moves.{Moves, waiting_for, SecondsMoved, NoInputs, SomeAsked};

use course::state::{Course, Halt, Moved};
use held_inputs::fill::{Filled, fill};
use input_source::source::{InputSource, end_inputs, has_ended};
use rules::limits::ROW_COLUMNS;
use steady::seconds::seconds;

// The most seconds of one call, and the numbers that they are handed.
pub const MOST_BATCH: usize = 256;

const MOST_NUMBERS: usize = 3 * MOST_BATCH;

// A call that works nothing and ends for this.
fn waiting(course: Course, next: usize, halt: Halt) -> Moved
    ensures { result ≡ waiting_for course next halt }
{
    Moved {
        course,
        next,
        seconds: 0,
        halt,
    }
}

// The chunk tells no further second: more of the file is wanted, or it has ended.
fn without_inputs(course: Course, source: InputSource, next: usize, ended: bool) -> Moved
    ensures { NoInputs course source next ended result }
{
    let after = end_inputs(source);
    if !ended {
        return waiting(Course { source, ..course }, next, Halt::Input);
    }
    if has_ended(source) {
        return waiting(course, next, Halt::Broken);
    }
    let course = Course {
        source: after,
        ..course
    };
    waiting(course, next, Halt::Further)
}

// What the source tells of so many seconds, as the seconds take it: load, solar and sheddable load of each, one after the other. A load
// that is to be scaled (02, #112) is scaled here, between the source and the second.
fn handed_over(
    count: usize,
    loads: &[u32],
    solars: &[u32],
    sheddables: &[u32],
    inputs: &mut [u32],
) -> usize
    requires { (count ≤ length loads.now) × (count ≤ length solars.now) × (count ≤ length sheddables.now) × (3 * count ≤ length inputs.old) }
    ensures { (result ≡ 3 * count) × (inputs_each (take (3 * count) inputs.new) ≡ inputs_in count loads.now solars.now sheddables.now) }
{
    for i in 0..count {
        let at = 3 * i;
        inputs[at] = loads[i];
        inputs[at + 1] = solars[i];
        inputs[at + 2] = sheddables[i];
    }
    3 * count
}

// The seconds of these inputs, into the lent rows.
fn with_inputs(
    course: Course,
    source: InputSource,
    next: usize,
    count: usize,
    loads: &[u32],
    solars: &[u32],
    sheddables: &[u32],
    rows: &mut [u64],
) -> Moved
    requires { (count ≤ 256) × (count ≤ course.left) × (count ≤ length loads.now) × (count ≤ length solars.now) × (count ≤ length sheddables.now) }
    ensures { SecondsMoved course source next (inputs_in count loads.now solars.now sheddables.now) rows.old result rows.new }
{
    let mut inputs = [0u32; MOST_NUMBERS];
    let numbers = handed_over(count, loads, solars, sheddables, &mut inputs);
    let worked = seconds(course.station, course.run, &inputs[..numbers], rows);
    Moved {
        course: Course {
            run: worked.run,
            source,
            left: course.left - worked.seconds as u32,
            ..course
        },
        next,
        seconds: worked.seconds,
        halt: Halt::from(worked.ended),
    }
}

// As many seconds as the chunk tells of those that the three slices have places for.
fn some_seconds(
    course: Course,
    chunk: &[u8],
    at: usize,
    ended: bool,
    loads: &mut [u32],
    solars: &mut [u32],
    sheddables: &mut [u32],
    rows: &mut [u64],
) -> Moved
    requires { SomeAsked course loads.old solars.old sheddables.old rows.old }
    ensures { Moves course chunk.now at ended rows.old result rows.new }
{
    let done = course.run.done;
    let filled = fill(course.source, done, chunk, at, loads, solars, sheddables);
    let Filled {
        source,
        next,
        seconds,
    } = filled;
    if seconds == 0 {
        return without_inputs(course, source, next, ended);
    }
    with_inputs(
        course, source, next, seconds, loads, solars, sheddables, rows,
    )
}

// Works up to 256 seconds with the chunk from a place on, as many as the chunk tells, are left and have a place for their row. `ended`
// says that the sample file has no byte after the chunk.
pub fn work(course: Course, chunk: &[u8], at: usize, ended: bool, rows: &mut [u64]) -> Moved
    ensures { Moves course chunk.now at ended rows.old result rows.new }
{
    let next = at.min(chunk.len());
    if course.left == 0 {
        return waiting(course, next, Halt::AllWorked);
    }
    let places = rows.len() / ROW_COLUMNS;
    if places == 0 {
        return waiting(course, next, Halt::Room);
    }
    let want = (course.left as usize).min(MOST_BATCH).min(places);
    let mut loads = [0u32; MOST_BATCH];
    let mut solars = [0u32; MOST_BATCH];
    let mut sheddables = [0u32; MOST_BATCH];
    some_seconds(
        course,
        chunk,
        at,
        ended,
        &mut loads[..want],
        &mut solars[..want],
        &mut sheddables[..want],
        rows,
    )
}
