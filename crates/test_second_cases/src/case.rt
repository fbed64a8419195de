// A case's numbers, as they are read.
ghost use Rattle.std.specs.Prelude.{◌<◌};

use std::array::from_fn;
use words::little::little;

pub(crate) const CASE_NUMBERS: usize = 351;

#[derive(Clone, Copy)]
pub(crate) struct Case {
    numbers: [u64; CASE_NUMBERS],
}

impl Case {
    pub(crate) fn of(bytes: &[u8; 2808]) -> Case {
        let numbers = from_fn(|i| little(&bytes[8 * i..8 * i + 8]));
        Case { numbers }
    }

    pub(crate) fn long(&self, at: usize) -> u64
        requires { at < 351 }
    {
        self.numbers[at]
    }

    // The comparison holds each number to its type, so that none that is read here is cut.
    pub(crate) fn narrow(&self, at: usize) -> u32
        requires { at < 351 }
    {
        (self.numbers[at] % 4_294_967_296) as u32
    }
}
