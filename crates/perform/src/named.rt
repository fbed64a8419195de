// What an argument names: its path, and the file, where it is open.
ghost use Rattle.std.specs.Prelude.{◌≡◌, ◌≤◌, length, None, IfOk};

use crate::{NO_ARGUMENT, NO_TEXT, SLOT, TOO_LONG};
use std::env::{Env, FillError};
use std::io::Error;
use std::{fs, io};

// What an argument names: how many bytes of its slot its path has, 0 where none is known, and the file, where it is open.
#[derive(Drop)]
pub(crate) struct Named<F> {
    pub(crate) end: usize,
    pub(crate) file: Option<F>,
    ghost within: { end ≤ 4096 },
}

// Puts an argument's bytes into its slot, and answers how many they are.
fn path_of<R: Env>(rt: &R, place: usize, slot: &mut [u8]) -> io::Result<usize>
    ensures { IfOk result (λ n. n ≤ length slot.new) }
{
    match rt.arg(place, slot) {
        Ok(size) => Ok(size),
        Err(FillError::TooLong) => Err(Error::from_raw_os_error(TOO_LONG)),
        Err(FillError::NotPresent) => Err(Error::from_raw_os_error(NO_ARGUMENT)),
    }
}

fn open_path<R: fs::Files>(rt: &R, path: &[u8]) -> io::Result<R::File> {
    match str::from_utf8(path) {
        Ok(path) => fs::open(rt, path),
        Err(_) => Err(Error::from_raw_os_error(NO_TEXT)),
    }
}

impl<F> Named<F> {
    // No path is known, and no file is open.
    pub(crate) fn new() -> Named<F>
        ensures { (result.end ≡ 0) × (result.file ≡ None) }
    {
        Named { end: 0, file: None }
    }

    pub(crate) fn open_file(&mut self) -> Option<&mut F> {
        self.file.as_mut()
    }

    // The path stays in its slot, for whoever is told of the file. A path that is cut short would name another file.
    pub(crate) fn open<R: fs::Files<File = F> + Env>(
        &mut self,
        rt: &R,
        place: usize,
        slot: &mut [u8],
    ) -> io::Result<()>
        requires { length slot.old ≤ 4096 }
    {
        let end = path_of(rt, place, slot)?;
        self.end = end;
        self.file = Some(open_path(rt, &slot[..end])?);
        Ok(())
    }
}
