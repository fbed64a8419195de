// The body of a set: six 4-byte numbers, then the five pairs of its fuel curve.
use crate::field::Field;

// "rating W 1 to 10,000,000"
pub const RATING: Field = Field {
    offset: 0,
    width: 4,
    least: 1,
    most: 10_000_000,
    words: "rating",
    unit: " W",
};

// "warm-up s and cool-down s, each 1 to 3,600"
pub const WARM_UP: Field = Field {
    offset: 4,
    width: 4,
    least: 1,
    most: 3_600,
    words: "warm-up",
    unit: " s",
};

// the same
pub const COOL_DOWN: Field = Field {
    offset: 8,
    width: 4,
    least: 1,
    most: 3_600,
    words: "cool-down",
    unit: " s",
};

// "service interval in run seconds 0 to 100,000,000"
pub const SERVICE_INTERVAL: Field = Field {
    offset: 12,
    width: 4,
    least: 0,
    most: 100_000_000,
    words: "service interval",
    unit: " run seconds",
};

// "service time s 1 to 2,592,000, but 0 where the interval is 0"
pub const SERVICE_TIME: Field = Field {
    offset: 16,
    width: 4,
    least: 0,
    most: 2_592_000,
    words: "service time",
    unit: " s",
};

// "points 2 to 5"
pub const POINTS: Field = Field {
    offset: 20,
    width: 4,
    least: 2,
    most: 5,
    words: "number of points",
    unit: "",
};

// The numbers before the pairs, in their order.
pub const SET: [Field; 6] = [
    RATING,
    WARM_UP,
    COOL_DOWN,
    SERVICE_INTERVAL,
    SERVICE_TIME,
    POINTS,
];

// "load in thousandths of the rating 0 to 1,500"
pub const PAIR_LOAD: Field = Field {
    offset: 0,
    width: 4,
    least: 0,
    most: 1_500,
    words: "load",
    unit: " thousandths of the rating",
};

// "mL/h 0 to 10,000,000"
pub const PAIR_RATE: Field = Field {
    offset: 4,
    width: 4,
    least: 0,
    most: 10_000_000,
    words: "rate",
    unit: " mL/h",
};

// A pair, by its place in the pair.
pub const PAIR: [Field; 2] = [PAIR_LOAD, PAIR_RATE];
