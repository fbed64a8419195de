// What is told at the end: to whoever reads standard error in words, and to bin/run, since a program has no exit status of its own.
use crate::refusal_line::say_refusal;
use exchange::action::{Why, Word};
use files::source::Program;
use files::why::say_why;
use judging::state::SAMPLES;
use perform::Files;
use perform::turns::Ended;
use plain_words::heedless::Heedless;
use plain_words::texts::say;
use run_machine::state::Machine;
use std::fs;
use std::io::Write;
use std::os::unix::fs::FileTypeExt;

// The descriptor that bin/run reads the word from, by its path.
const TOLD_ON: &str = "/dev/fd/3";

// A read that fails once rows were written leaves rows without an end.
fn say_unfinished<W: Write>(err: &mut W, why: Why, working: bool) {
    if working && matches!(why, Why::Unread(SAMPLES)) {
        say(err, b"run: the rows are not to be used.\n");
    }
}

fn say_nothing<W: Write>(err: &mut W, why: Why, working: bool, files: &Files, paths: &[u8]) {
    say_why(err, Program::Run, why, files, paths);
    say_unfinished(err, why, working);
}

fn say_word<W: Write>(err: &mut W, word: Word, working: bool, files: &Files, paths: &[u8]) {
    match word {
        Word::Complete => {}
        Word::Refused(refusal) => say_refusal(err, refusal),
        Word::Nothing(why) => say_nothing(err, why, working, files, paths),
    }
}

// Whether the descriptor is a pipe, as that of bin/run is. By its path a file would be opened anew, and a caller's own written over.
fn is_pipe(rt: &HostRuntime) -> bool {
    fs::metadata(rt, TOLD_ON).is_ok_and(|found| found.file_type().is_fifo())
}

// Where the descriptor is no pipe, nobody is told. It is opened for both ways, since opening a named pipe to write alone waits for a reader,
// who may be gone.
fn tell(rt: &HostRuntime, word: Word) {
    if !is_pipe(rt) {
        return;
    }
    if let Ok(mut told) = fs::OpenOptions::new()
        .read(true)
        .write(true)
        .open(rt, TOLD_ON)
    {
        say(&mut told, word_of(word));
    }
}

fn word_of(word: Word) -> &'static [u8] {
    match word {
        Word::Complete => b"complete\n",
        Word::Refused(_) => b"refused\n",
        Word::Nothing(_) => b"nothing\n",
    }
}

// The word for bin/run comes last, once the files are closed: one of them could have the descriptor's number.
pub(crate) fn say_end(rt: &HostRuntime, ended: Ended<Machine>, paths: &[u8]) {
    let Ended { word, state, files } = ended;
    let held = state.held;
    say_word(
        &mut Heedless(rt.stderr()),
        word,
        held.working,
        &files,
        paths,
    );
    drop(files);
    if held.told {
        tell(rt, word);
    }
}
