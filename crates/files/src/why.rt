// Why there is no complete answer, in plain words. The system's reason is the one of the call which failed, as the files keep it.
use crate::source::{Program, SAMPLES, Source};
use exchange::action::Why;
use perform::{Files, PLACES, SLOT};
use plain_words::reasons::fail;
use plain_words::shown::show_path;
use plain_words::texts::say;
use std::io::{Error, Write};

fn say_usage<W: Write>(err: &mut W, program: Program) {
    let call = program.call();
    let told = match program {
        Program::Check => {
            "check reads a station file and then a sample file, and says whether both are in order for a run."
        }
        Program::Run => {
            "run works a station's seconds, 0 to 316224000 of them, over a sample file, and prints a row for each and a line for each set."
        }
    };
    let _ = writeln!(err, "usage: {call}\n{told}");
}

fn say_small<W: Write>(err: &mut W, program: Program) {
    let _ = writeln!(
        err,
        "{program}: the program was built with a buffer that is too small."
    );
}

fn say_read_once<W: Write>(err: &mut W, source: Source<'_>) {
    let program = source.program;
    source.say_of_it(err, "cannot be read twice, as a pipe or a terminal cannot.");
    source.say_reason(err);
    let _ = writeln!(
        err,
        "{program}: the samples are checked before the first second and then read again; save them to a file, and name that."
    );
}

fn say_changed<W: Write>(err: &mut W, source: Source<'_>) {
    let program = source.program;
    source.say_of_it(
        err,
        "changed while it was being read; the rows are not to be used.",
    );
    let _ = writeln!(
        err,
        "{program}: see that nothing writes to it, such as a logger, or copy it, and run again."
    );
}

fn say_unwritten<W: Write>(err: &mut W, program: Program, reason: Error) {
    match program {
        Program::Check => fail(
            err,
            b"check: the answer could not be written to standard output",
            reason,
        ),
        Program::Run => {
            fail(err, b"run: standard output could not be written", reason);
            say(
                err,
                b"run: what was written is not to be used; make room, or keep the reader of the output open, and run again.\n",
            );
        }
    }
}

fn say_broken<W: Write>(err: &mut W, program: Program, path: &[u8]) {
    let (begins, ends) = match program {
        Program::Check => ("the check of", ". Check again."),
        Program::Run => ("the run over", "; the rows are not to be used. Run again."),
    };
    let _ = write!(err, "{program}: {begins} the sample file ");
    show_path(err, path);
    let _ = writeln!(err, " broke off{ends}");
}

// The place of the file that a reason is about.
fn place_of(why: Why) -> usize {
    match why {
        Why::Unopened(place) | Why::Unread(place) | Why::ReadOnce(place) | Why::Changed(place) => {
            place
        }
        Why::WrongCall | Why::SmallBuffer | Why::Unwritten | Why::Broken => SAMPLES,
    }
}

fn say_why_of<W: Write>(err: &mut W, why: Why, source: Source<'_>) {
    let program = source.program;
    match why {
        Why::WrongCall => say_usage(err, program),
        Why::SmallBuffer => say_small(err, program),
        Why::Unopened(_) => source.say_unopened(err),
        Why::Unread(_) => source.say_unread(err),
        Why::ReadOnce(_) => say_read_once(err, source),
        Why::Changed(_) => say_changed(err, source),
        Why::Unwritten => say_unwritten(err, program, source.reason),
        Why::Broken => say_broken(err, program, source.path),
    }
}

// `paths` has a slot of 4096 bytes for each argument's path, as `perform` filled them.
pub fn say_why<W: Write, F>(
    err: &mut W,
    program: Program,
    why: Why,
    files: &Files<F>,
    paths: &[u8],
) {
    let place = place_of(why);
    if PLACES <= place {
        return;
    }
    let from = place * SLOT;
    if let Some(path) = paths.get(from..from + files.path_end(place)) {
        let source = Source {
            program,
            place,
            path,
            reason: files.reason(),
        };
        say_why_of(err, why, source);
    }
}
