// A number of a station file, by its place in its body. The reader, the checks and what a clerk is told go by these rows alone.

// The most bytes that words or a unit have, so that whoever holds them in an array has room.
pub const WORDS: usize = 26;

#[derive(Clone, Copy)]
pub struct Field {
    // in bytes, from the start of its body
    pub offset: usize,
    // in bytes
    pub width: usize,
    // what it may be whatever the other numbers are
    pub least: u64,
    pub most: u64,
    // what a clerk is told of it
    pub words: &'static str,
    pub unit: &'static str,
}
