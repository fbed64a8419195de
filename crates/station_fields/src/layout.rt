// Where the parts of a station file stand: "a table of contents comes first: four entries of 8 bytes", and "bodies follow without gaps".
// A later edition with other sets changes their kind and size here.

// A part by its entry in the table of contents: its kind, the counts that it may have, and the bytes of one body.
#[derive(Clone, Copy)]
pub struct Part {
    pub kind: u64,
    pub least: u64,
    pub most: u64,
    pub size: usize,
}

// "Kinds are 1, 2, 3, 4 in that order"; "control 1 of 36, battery 1 of 32, sets 1 to 8 of 64, configurations 1 to 64 of 1"
pub const CONTROL_PART: Part = Part {
    kind: 1,
    least: 1,
    most: 1,
    size: 36,
};

pub const BATTERY_PART: Part = Part {
    kind: 2,
    least: 1,
    most: 1,
    size: 32,
};

pub const SETS_PART: Part = Part {
    kind: 3,
    least: 1,
    most: 8,
    size: 64,
};

pub const CONFIGURATIONS_PART: Part = Part {
    kind: 4,
    least: 1,
    most: 64,
    size: 1,
};

pub const PARTS: [Part; 4] = [CONTROL_PART, BATTERY_PART, SETS_PART, CONFIGURATIONS_PART];

// The places of their entries in the table of contents, from 0.
pub const CONTROL_ENTRY: usize = 0;

pub const BATTERY_ENTRY: usize = 1;

pub const SETS_ENTRY: usize = 2;

pub const CONFIGURATIONS_ENTRY: usize = 3;

pub const ENTRIES: usize = 4;

// What a clerk is told of them where an entry's kind or count is wrong.
pub const KINDS: &str = " (kinds are 1, 2, 3, 4 in that order)";

pub const COUNTS: &str = " (1 control, 1 battery, 1 to 8 sets, 1 to 64 configurations)";

// "kind (2 bytes), count (2), offset (4)"
pub const ENTRY_SIZE: usize = 8;

pub const ENTRY_KIND: usize = 0;

pub const ENTRY_KIND_WIDTH: usize = 2;

pub const ENTRY_COUNT: usize = 2;

pub const ENTRY_COUNT_WIDTH: usize = 2;

pub const ENTRY_OFFSET: usize = 4;

pub const ENTRY_OFFSET_WIDTH: usize = 4;

// "So offsets are 32, 68, 100 and 100 + 64 x sets"
pub const CONTROL_AT: usize = ENTRIES * ENTRY_SIZE;

pub const BATTERY_AT: usize = CONTROL_AT + CONTROL_PART.size;

pub const SETS_AT: usize = BATTERY_AT + BATTERY_PART.size;

pub const SET_SIZE: usize = SETS_PART.size;

pub const CONFIGURATION_SIZE: usize = CONFIGURATIONS_PART.size;

// "a file has 165 to 676 bytes": with the fewest and with the most sets and configurations
pub const LEAST_FILE: usize = SETS_AT
    + SET_SIZE * SETS_PART.least as usize
    + CONFIGURATION_SIZE * CONFIGURATIONS_PART.least as usize;

pub const MOST_FILE: usize = SETS_AT
    + SET_SIZE * SETS_PART.most as usize
    + CONFIGURATION_SIZE * CONFIGURATIONS_PART.most as usize;

// The pairs of a set's fuel curve stand after its other numbers.
pub const PAIRS_OFFSET: usize = 24;

pub const PAIR_SIZE: usize = 8;

pub const PAIRS: usize = 5;
