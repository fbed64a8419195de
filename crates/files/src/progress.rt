// How far a long reading has come, for whoever watches a terminal.
ghost use Rattle.std.specs.Prelude.{◌≡◌, ◌/◌, max};

use crate::source::Program;
use std::io::{IsTerminal, Write};

// Each further 256 MB are told.
const TOLD_EACH: u64 = 256_000_000;

const MEGABYTE: u64 = 1_000_000;

// Says how much is read where a further 256 MB are full and somebody may watch, and answers how many times 256 MB are told.
pub fn say_read<W: Write + IsTerminal>(err: &mut W, program: Program, told: u64, bytes: u64) -> u64
    ensures { result ≡ max told (bytes / 256_000_000) }
{
    let full = bytes / TOLD_EACH;
    if told < full && err.is_terminal() {
        let read = bytes / MEGABYTE;
        let _ = writeln!(err, "{program}: {read} MB read");
    }
    told.max(full)
}

// Says how many seconds are worked, of those and what is left, where somebody may watch.
pub fn say_worked<W: Write + IsTerminal>(err: &mut W, program: Program, done: u32, left: u32) {
    if err.is_terminal() {
        let all = u64::from(done) + u64::from(left);
        let _ = writeln!(err, "{program}: {done} of {all} seconds worked");
    }
}
