// The battery body: power and efficiency of 4 bytes each, then three contents of 8 each.
use crate::field::Field;

// "power W 0 to 50,000,000"
pub const POWER: Field = Field {
    offset: 0,
    width: 4,
    least: 0,
    most: 50_000_000,
    words: "power",
    unit: " W",
};

// "efficiency % 1 to 100"
pub const EFFICIENCY: Field = Field {
    offset: 4,
    width: 4,
    least: 1,
    most: 100,
    words: "efficiency",
    unit: " %",
};

// "least <= start <= most <= 10,000,000,000,000": none of the three is above it
pub const LEAST_CONTENT: Field = Field {
    offset: 8,
    width: 8,
    least: 0,
    most: 10_000_000_000_000,
    words: "least content",
    unit: " hundredths of a Ws",
};

// the same
pub const MOST_CONTENT: Field = Field {
    offset: 16,
    width: 8,
    least: 0,
    most: 10_000_000_000_000,
    words: "most content",
    unit: " hundredths of a Ws",
};

// the same
pub const START_CONTENT: Field = Field {
    offset: 24,
    width: 8,
    least: 0,
    most: 10_000_000_000_000,
    words: "content at the start",
    unit: " hundredths of a Ws",
};

// All of them, in their order.
pub const BATTERY: [Field; 5] = [
    POWER,
    EFFICIENCY,
    LEAST_CONTENT,
    MOST_CONTENT,
    START_CONTENT,
];
