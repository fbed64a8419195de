// The held setpoint by its bits. All NaN count as one, and Rattle has the bits of no NaN.

// The bits of infinity: those above it, the sign's bit dropped, are NaN's.
const INFINITY: u64 = 0x7ff0_0000_0000_0000;

const SIGN: u64 = 0x8000_0000_0000_0000;

// The one NaN that is printed.
const NAN: u64 = 0x7ff8_0000_0000_0000;

pub(crate) fn float_of(bits: u64) -> f64 {
    if INFINITY < bits % SIGN {
        return 0.0 / 0.0;
    }
    f64::from_bits(bits)
}

pub(crate) fn bits_of(number: f64) -> u64 {
    if number != number {
        return NAN;
    }
    f64::to_bits(number)
}
