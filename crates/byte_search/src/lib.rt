#![tactic(auto)]
// Where a byte stands in a part of a slice, for every reader of a file's bytes.
ghost use Rattle.std.specs.Prelude.{◌≡◌, ◌+◌, ◌≤◌, max};
ghost use Rattle.byte_search.specs.Bytes.{index_of, slice};

use memchr::memchr;

// The place of the first `byte` from `from` on and before `to`, or where that part ends if there is none; an empty part ends at `from`.
#[inline]
pub fn find(s: &[u8], from: usize, to: usize, byte: u8) -> usize
    ensures first { result ≡ from + index_of byte (slice from to s.now) }
    ensures within { result ≤ max from to }
{
    let end = to.min(s.len());
    if end <= from {
        return from;
    }
    match memchr(byte, &s[from..end]) {
        Some(at) => from + at,
        None => end,
    }
}
