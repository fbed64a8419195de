// The control body: "nine 4-byte numbers".
use crate::field::Field;

// "spinning reserve W 0 to 50,000,000"
pub const SPINNING: Field = Field {
    offset: 0,
    width: 4,
    least: 0,
    most: 50_000_000,
    words: "spinning reserve",
    unit: " W",
};

// "coverage % 0 to 100"
pub const COVERAGE: Field = Field {
    offset: 4,
    width: 4,
    least: 0,
    most: 100,
    words: "solar coverage",
    unit: " %",
};

// "minimum load % 0 to 100"
pub const MINIMUM_LOAD: Field = Field {
    offset: 8,
    width: 4,
    least: 0,
    most: 100,
    words: "minimum load",
    unit: " %",
};

// "shed % 0 to 100"
pub const SHED: Field = Field {
    offset: 12,
    width: 4,
    least: 0,
    most: 100,
    words: "shed",
    unit: " %",
};

// "shed delay s 1 to 60"
pub const SHED_DELAY: Field = Field {
    offset: 16,
    width: 4,
    least: 1,
    most: 60,
    words: "shed delay",
    unit: " s",
};

// "filter k 0 to 999"
pub const FILTER_K: Field = Field {
    offset: 20,
    width: 4,
    least: 0,
    most: 999,
    words: "filter k",
    unit: " thousandths",
};

// "minimum seconds 0 to 86,400"
pub const MINIMUM_SECONDS: Field = Field {
    offset: 24,
    width: 4,
    least: 0,
    most: 86_400,
    words: "minimum seconds",
    unit: " s",
};

// "maintain 0 or 1"
pub const MAINTAIN: Field = Field {
    offset: 28,
    width: 4,
    least: 0,
    most: 1,
    words: "maintain",
    unit: "",
};

// "mask of sets on line at the start, existing sets only": the checks ask which sets exist, and not this range, which follows from it
// where there are at most eight sets
pub const ON_LINE: Field = Field {
    offset: 32,
    width: 4,
    least: 0,
    most: 255,
    words: "sets on line at the start",
    unit: "",
};

// All of them, in their order.
pub const CONTROL: [Field; 9] = [
    SPINNING,
    COVERAGE,
    MINIMUM_LOAD,
    SHED,
    SHED_DELAY,
    FILTER_K,
    MINIMUM_SECONDS,
    MAINTAIN,
    ON_LINE,
];
