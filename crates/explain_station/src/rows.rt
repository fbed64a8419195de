// The table's rows that stand together in a file.
use station_fields::battery::BATTERY;
use station_fields::control::CONTROL;
use station_fields::field::Field;
use station_fields::genset::{PAIR, SET};

// The numbers that stand together in a file.
#[derive(Clone, Copy)]
pub(crate) enum Body {
    // of a station with so many sets
    Control(usize),
    Battery,
    Set,
    // by its place in the fuel curve, from 0
    Pair(usize),
    UnusedPair(usize),
}

// Its rows, in their order.
pub(crate) fn rows_of(body: Body) -> &'static [Field] {
    match body {
        Body::Control(_) => &CONTROL,
        Body::Battery => &BATTERY,
        Body::Set => &SET,
        Body::Pair(_) | Body::UnusedPair(_) => &PAIR,
    }
}
