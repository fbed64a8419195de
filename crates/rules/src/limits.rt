// The limits of document 01 for the code that asks them, but for those of a station file, which `station_fields` has. The definitions
// have the numbers as the paper has them.

// a cell "at most 50,000 kW"; an amount and a total of each second likewise
pub const MOST_POWER: u32 = 50_000_000;

// "at most 512 bytes without the LF"
pub const MOST_LINE: usize = 512;

// "Time: 1 to 9 digits, at most 316,223,999"
pub const MOST_TIME_DIGITS: usize = 9;

pub const MOST_TIME: u32 = 316_223_999;

// "Power in kW: 1 to 6 digits, then nothing or a point and 1 to 3 digits"
pub const MOST_KW_DIGITS: usize = 6;

pub const MOST_DECIMALS: usize = 3;

// "seconds done <= 316,224,000"
pub const MOST_SECONDS: u32 = 316_224_000;

// "fuel <= 15,000,000,000 x done"
pub const MOST_FUEL_A_SECOND: u64 = 15_000_000_000;

// "row buffer under 256 bytes"
pub const LEAST_ROW_BUFFER: usize = 256;

// Numbers that a second is handed: load, solar offered and sheddable load.
pub const SECOND_INPUTS: usize = 3;

// Numbers of a row.
pub const ROW_COLUMNS: usize = 13;
