// The numbers of a station file, by the rows of the table and the layout of its parts.
ghost use Rattle.std.specs.Prelude.{◌≤◌, ◌<◌};

use station_fields::field::Field;
use station_fields::layout::{
    CONFIGURATIONS_PART, ENTRY_COUNT, ENTRY_OFFSET, ENTRY_SIZE, SET_SIZE, SETS_AT, SETS_PART,
};
use words::little::little;

// The counts of sets and configurations stand in the third and the fourth entry of the contents.
const SETCOUNT_AT: usize = 2 * ENTRY_SIZE + ENTRY_COUNT;

const CONFIGCOUNT_AT: usize = 3 * ENTRY_SIZE + ENTRY_COUNT;

const COUNT_WIDTH: usize = ENTRY_OFFSET - ENTRY_COUNT;

const CONFIGURATION_SIZE: usize = CONFIGURATIONS_PART.size;

// The number in `width` bytes at a place of a part, 0 where the part has not all of them.
pub(crate) fn number_at(part: &[u8], at: usize, width: usize) -> u64 {
    from_place(part, at).get(..width).map_or(0, little)
}

// A file or a body from a place on; nothing past its end.
pub(crate) fn from_place(bytes: &[u8], at: usize) -> &[u8] {
    bytes.get(at..).unwrap_or(&[])
}

// A row's number, of the body that the bytes start with.
pub(crate) fn number_of(bytes: &[u8], row: Field) -> u64 {
    number_at(bytes, row.offset, row.width)
}

// How many sets the contents give, and no more than a station may have.
pub(crate) fn setcount_of(file: &[u8]) -> usize
    ensures { result ≤ 8 }
{
    number_at(file, SETCOUNT_AT, COUNT_WIDTH).min(SETS_PART.most) as usize
}

// How many configurations the contents give.
pub(crate) fn configcount_of(file: &[u8]) -> u64 {
    number_at(file, CONFIGCOUNT_AT, COUNT_WIDTH)
}

// What the paper counts from 1, as the code counts it.
pub(crate) fn from_zero(number: u32) -> usize
    ensures { result < 4294967296 }
{
    number.saturating_sub(1) as usize
}

// The file from the set at a place on, counted from 0.
pub(crate) fn set_at(file: &[u8], place: usize) -> &[u8]
    requires { place < 4294967296 }
{
    from_place(file, SETS_AT + SET_SIZE * place)
}

// Where the configurations start, by the number of sets that the contents give.
pub(crate) fn configurations_at(file: &[u8]) -> usize
    ensures { result ≤ 612 }
{
    SETS_AT + SET_SIZE * setcount_of(file)
}

// The mask of the configuration at a place from 0.
pub(crate) fn mask_at(file: &[u8], place: usize) -> u64 {
    number_at(
        from_place(file, configurations_at(file)),
        place,
        CONFIGURATION_SIZE,
    )
}
