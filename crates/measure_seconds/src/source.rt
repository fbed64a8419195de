// The station file by its name, and what to say where it cannot be opened or read.
ghost use Rattle.std.specs.Prelude.{◌≤◌, length, IfSome};

use exchange::action::{Action, BUFFER_END};
use exchange::event::Event;
use perform::{Files, SLOT, perform};
use plain_words::heedless::Heedless;
use plain_words::reasons::fail;
use plain_words::shown::show_path;
use plain_words::texts::say;
use std::io::{Error, ErrorKind, Write};

// The place of the station file among the arguments.
const STATION: usize = 2;

// The system's reason comes last.
fn say_of_file<W: Write>(err: &mut W, path: &[u8], fault: &[u8], reason: Error) {
    say(err, b"measure_seconds: the station file ");
    show_path(err, path);
    say(err, fault);
    fail(err, b"measure_seconds: the system's reason", reason);
}

// A path that is too long for the system was not kept.
fn say_unopened<W: Write>(err: &mut W, path: &[u8], reason: Error) {
    if path.is_empty() && reason.kind() == ErrorKind::InvalidFilename {
        fail(
            err,
            b"measure_seconds: the station file's path cannot be used",
            reason,
        );
        return;
    }
    say_of_file(err, path, b" cannot be opened.\n", reason);
}

// The start of the file that is open, as far as the buffer holds it: how many bytes, if no read failed.
fn start_of(rt: &HostRuntime, files: &mut Files, paths: &mut [u8], file: &mut [u8]) -> Option<usize>
    ensures { IfSome result (λ size. size ≤ length file.new) }
{
    let mut size = 0;
    while size < file.len() {
        match perform(
            rt,
            files,
            Action::Read(STATION, size, BUFFER_END),
            paths,
            file,
            b"",
        ) {
            Event::Read(count) => size += count,
            Event::Failed => return None,
            Event::Done | Event::Count(_) | Event::End => return Some(size),
        }
    }
    Some(size)
}

// The start of the station file: how many bytes of it there are, or none where a message said why not.
pub(crate) fn station_bytes(rt: &HostRuntime, file: &mut [u8]) -> Option<usize>
    ensures { IfSome result (λ size. size ≤ length file.new) }
{
    let mut paths = [0u8; 12288];
    let mut files = Files::new();
    let opened = perform(rt, &mut files, Action::Open(STATION), &mut paths, file, b"");
    let from = STATION * SLOT;
    let past = from + files.path_end(STATION);
    if let Event::Failed = opened {
        say_unopened(
            &mut Heedless(rt.stderr()),
            &paths[from..past],
            files.reason(),
        );
        return None;
    }
    let size = start_of(rt, &mut files, &mut paths, file);
    if size.is_none() {
        say_of_file(
            &mut Heedless(rt.stderr()),
            &paths[from..past],
            b" cannot be read.\n",
            files.reason(),
        );
    }
    size
}
