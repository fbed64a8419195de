// Standard output: the rows, or one line of what the seconds came to.
use crate::work::Tally;
use plain_words::reasons::fail;
use rules::run::SetState;
use std::io;
use std::io::Error;

fn say_unwritten(rt: &HostRuntime, reason: Error) {
    fail(
        &mut rt.stderr(),
        b"measure_seconds: standard output cannot be written",
        reason,
    );
}

// Whether the text was taken.
pub(crate) fn is_written(rt: &HostRuntime, text: &[u8]) -> bool {
    match rt.write_all(text) {
        Ok(()) => true,
        Err(reason) => {
            say_unwritten(rt, reason);
            false
        }
    }
}

// The sets' fuel together; where the sum wraps, a difference shows as well.
fn fuel_of(states: [SetState; 8]) -> u64 {
    states
        .iter()
        .fold(0, |fuel: u64, state| fuel.wrapping_add(state.fuel))
}

fn put_value(rt: &HostRuntime, name: &[u8], value: u64) -> io::Result<()> {
    rt.write_all(name)?;
    rt.print(value)
}

// Piece by piece, so that a standard output that fails on the way has what came before.
fn write_tally(rt: &HostRuntime, tally: Tally) -> io::Result<()> {
    put_value(rt, b"seconds ", tally.seconds)?;
    put_value(rt, b", bytes ", tally.bytes.count as u64)?;
    put_value(rt, b", checksum ", tally.bytes.checksum())?;
    put_value(rt, b", done ", tally.run.done as u64)?;
    put_value(rt, b", store ", tally.run.store)?;
    put_value(rt, b", called ", tally.run.called as u64)?;
    put_value(rt, b", fuel ", fuel_of(tally.run.sets))?;
    rt.write_all(b"\n")
}

pub(crate) fn print_tally(rt: &HostRuntime, tally: Tally) {
    if let Err(reason) = write_tally(rt, tally) {
        say_unwritten(rt, reason);
    }
}
