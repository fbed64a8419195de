// Numbers at a place of the file. Those of a row are put together out of their 4 or 8 bytes, which costs less than the part that they are.
ghost use Rattle.std.specs.Prelude.{◌≡◌, ◌+◌, ◌≤◌, ◌<◌, ◌^◌, length, drop};
ghost use Rattle.rules.specs.Bytes.{little};

use station_fields::field::Field;
use words::little::little;

pub(crate) fn number_at(s: &[u8], at: usize, width: usize) -> u64
    requires { (at + width ≤ length s.now) × (width ≤ 8) }
    ensures value { result ≡ little width (drop at s.now) }
    ensures upper_bound { result < 256 ^ width }
{
    let end = at + width;
    little(&s[at..end])
}

// A row's number of 8 bytes, of the body that starts at a place.
pub(crate) fn field_at(s: &[u8], body: usize, row: Field) -> u64
    requires { (body + row.offset + row.width ≤ length s.now) × (row.width ≡ 8) }
    ensures value { result ≡ little row.width (drop (body + row.offset) s.now) }
    ensures upper_bound { result < 256 ^ row.width }
{
    let at = body + row.offset;
    u64::from_le_bytes([
        s[at],
        s[at + 1],
        s[at + 2],
        s[at + 3],
        s[at + 4],
        s[at + 5],
        s[at + 6],
        s[at + 7],
    ])
}

// One of 4 bytes.
pub(crate) fn word_at(s: &[u8], body: usize, row: Field) -> u32
    requires { (body + row.offset + row.width ≤ length s.now) × (row.width ≡ 4) }
    ensures { result ≡ little row.width (drop (body + row.offset) s.now) }
{
    let at = body + row.offset;
    u32::from_le_bytes([s[at], s[at + 1], s[at + 2], s[at + 3]])
}
