#![tactic(auto)]
// What a program asks for, performed, and what came of it. It is the same for every program. Its contract has the shape of each answer;
// that the bytes are the files', and reach standard output, no contract can say: what is taken on trust stands in exchange/specs/World.antt.
ghost use Rattle.std.specs.Prelude.{◌≡◌, ◌≤◌, ◌+◌, min, length, map, replicate, None, IfOk, slice_index_or};
ghost use Rattle.perform.specs.Shape.{Shaped, ShapedArgument, ShapedRead, ShapedDone};
ghost use Rattle.exchange.specs.World.{Outside};

mod named;
pub mod turns;

use crate::named::Named;
use exchange::action::Action;
use exchange::event::Event;
use std::env::{Env, FillError};
use std::fs::File;
use std::io::{Error, Read, Seek};
use std::{fs, io};

// How many arguments can name a file, the program's own name counted.
pub const PLACES: usize = 8;

// The bytes that each argument's path has in the lent paths.
pub const SLOT: usize = 4096;

// The system's numbers for what it is not asked: that nothing failed, of a file that was not opened, of an argument that is not there, of
// one that is too long for a path, and of one that is no text, as a path has to be here.
const NOTHING_FAILED: i32 = 0;

const NOT_OPEN: i32 = 9;

pub(crate) const NO_ARGUMENT: i32 = 22;

pub(crate) const TOO_LONG: i32 = 36;

pub(crate) const NO_TEXT: i32 = 84;

// What each argument names, the system's reason for what failed last, and how many actions were performed over them, by which a loop
// can show that there were no more than its turns.
#[derive(Drop)]
pub struct Files<F = File> {
    named: [Named<F>; PLACES],
    reason: Error,
    performed: u64,
}

impl<F> Files<F> {
    pub fn new() -> Files<F>
        ensures closed { map (λ n. n.file) result.named ≡ replicate 8 None }
        ensures unknown { map (λ n. n.end) result.named ≡ replicate 8 0 }
        ensures unused { result.performed ≡ 0 }
    {
        Files {
            named: [
                Named::new(),
                Named::new(),
                Named::new(),
                Named::new(),
                Named::new(),
                Named::new(),
                Named::new(),
                Named::new(),
            ],
            reason: Error::from_raw_os_error(NOTHING_FAILED),
            performed: 0,
        }
    }

    // How many bytes of its slot an argument's path has, 0 where there is none.
    pub fn path_end(&self, place: usize) -> usize
        ensures within { result ≤ 4096 }
        ensures is { result ≡ slice_index_or (map (λ n. n.end) self.now.named) place 0 }
    {
        self.named.get(place).map_or(0, |named| named.end)
    }

    // The system's reason for what failed last.
    pub fn reason(&self) -> Error
        ensures { result ≡ self.now.reason }
    {
        self.reason
    }

    fn done(&mut self, came: io::Result<()>) -> Event
        ensures { ShapedDone result }
    {
        match came {
            Ok(()) => Event::Done,
            Err(reason) => {
                self.reason = reason;
                Event::Failed
            }
        }
    }

    // The file that an argument names, where it is open.
    fn file_of(&mut self, place: usize) -> io::Result<&mut F> {
        let named = &mut self.named;
        let named = &mut named[..];
        match named.get_mut(place).and_then(Named::open_file) {
            Some(file) => Ok(file),
            None => Err(Error::from_raw_os_error(NOT_OPEN)),
        }
    }
}

// The first place without an argument.
fn count<R: Env>(rt: &R) -> usize {
    for place in 0..usize::MAX {
        if let Err(FillError::NotPresent) = rt.arg(place, &mut []) {
            return place;
        }
    }
    usize::MAX
}

// The argument's bytes; one that is too long leaves its first bytes in the buffer.
fn argument<R: Env>(rt: &R, place: usize, buf: &mut [u8]) -> Event
    ensures { ShapedArgument result buf.new × (length buf.new ≡ length buf.old) }
{
    match rt.arg(place, buf) {
        Ok(size) => Event::Read(size),
        Err(FillError::TooLong) => Event::Read(buf.len()),
        Err(FillError::NotPresent) => Event::Failed,
    }
}

impl<F> Files<F> {
    // Opens the file that an argument names, whose path stays in its slot.
    fn open<R: fs::Files<File = F> + Env>(
        &mut self,
        rt: &R,
        place: usize,
        paths: &mut [u8],
    ) -> io::Result<()> {
        let Some(named) = self.named.get_mut(place) else {
            return Err(Error::from_raw_os_error(NO_ARGUMENT));
        };
        *named = Named::new();
        let from = place * SLOT;
        match paths.get_mut(from..from + SLOT) {
            Some(slot) => named.open(rt, place, slot),
            None => Err(Error::from_raw_os_error(TOO_LONG)),
        }
    }
}

impl<F: Read> Files<F> {
    // Reads into the first bytes of a part of the buffer, and answers how many they are.
    fn read_part(&mut self, place: usize, part: &mut [u8]) -> io::Result<usize>
        ensures { IfOk result (λ n. n ≤ length part.new) }
    {
        self.file_of(place)?.read(part)
    }

    // A part without room is no end of the file, and neither is a read that fails.
    fn read(&mut self, place: usize, from: usize, to: usize, buf: &mut [u8]) -> Event
        ensures { ShapedRead result from to buf.new × Outside from to buf.old buf.new }
    {
        let end = to.min(buf.len());
        if end <= from {
            return Event::Failed;
        }
        match self.read_part(place, &mut buf[from..end]) {
            Ok(0) => Event::End,
            Ok(size) => Event::Read(size),
            Err(reason) => {
                self.reason = reason;
                Event::Failed
            }
        }
    }
}

fn write<R: Print>(rt: &R, size: usize, out: &[u8]) -> io::Result<()> {
    match out.get(..size) {
        Some(text) => rt.write_all(text),
        None => Err(Error::from_raw_os_error(NOTHING_FAILED)),
    }
}

impl<F: Seek> Files<F> {
    fn rewind(&mut self, place: usize) -> io::Result<()> {
        self.file_of(place)?.rewind()
    }
}

// What came of an action.
fn came_of<R: fs::Files + Env + Print>(
    rt: &R,
    files: &mut Files<R::File>,
    action: Action,
    paths: &mut [u8],
    buf: &mut [u8],
    out: &[u8],
) -> Event
    ensures { Shaped action result buf.old buf.new }
{
    match action {
        Action::Count => Event::Count(count(rt)),
        Action::Argument(place) => argument(rt, place, buf),
        Action::Open(place) => {
            let came = files.open(rt, place, paths);
            files.done(came)
        }
        Action::Read(place, from, to) => files.read(place, from, to, buf),
        Action::Rewind(place) => {
            let came = files.rewind(place);
            files.done(came)
        }
        Action::Write(size) => files.done(write(rt, size, out)),
        Action::Stop(_) => Event::Failed,
    }
}

// One action; `paths` has a slot of 4096 bytes for each argument's path.
pub fn perform<R: fs::Files + Env + Print>(
    rt: &R,
    files: &mut Files<R::File>,
    action: Action,
    paths: &mut [u8],
    buf: &mut [u8],
    out: &[u8],
) -> Event
    ensures shaped { Shaped action result buf.old buf.new }
    ensures counted { files.new.performed ≡ min 18446744073709551615 (files.old.performed + 1) }
{
    let performed = files.performed.saturating_add(1);
    let event = came_of(rt, files, action, paths, buf, out);
    files.performed = performed;
    event
}
