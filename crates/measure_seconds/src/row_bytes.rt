// What the rows' bytes come to: how many there are, and Fletcher's two sums over them, which are the same however the bytes are parted.
// The largest prime below 65,536, as Adler takes it.
const MODULUS: u64 = 65_521;

// So many bytes are summed before a remainder is taken: neither sum wraps.
const MOST_SUMMED: usize = 65_536;

#[derive(Clone, Copy)]
pub(crate) struct RowBytes {
    pub(crate) count: u64,
    // the bytes' sum
    pub(crate) low: u64,
    // the sum of what `low` was after each byte
    pub(crate) high: u64,
}

impl RowBytes {
    pub(crate) fn new() -> RowBytes {
        RowBytes {
            count: 0,
            low: 0,
            high: 0,
        }
    }

    pub(crate) fn with(self, bytes: &[u8]) -> RowBytes {
        // never taken: no buffer here is larger
        if MOST_SUMMED < bytes.len() {
            return self;
        }
        let mut low = self.low % MODULUS;
        let mut high = self.high % MODULUS;
        for byte in bytes {
            low += u64::from(*byte);
            high += low;
        }
        RowBytes {
            count: self.count.wrapping_add(bytes.len() as u64),
            low: low % MODULUS,
            high: high % MODULUS,
        }
    }

    // Both sums as one number.
    pub(crate) fn checksum(self) -> u64 {
        (self.high % MODULUS) * 65_536 + self.low % MODULUS
    }
}
