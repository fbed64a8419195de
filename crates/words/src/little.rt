// "Little-endian": the one reader of the numbers of a station file.
ghost use Rattle.std.specs.Prelude.{◌≡◌, ◌<◌, ◌^◌, min, length};
ghost use Rattle.rules.specs.Bytes.{little};

// The number in the first 8 bytes of a part; a byte that is not there counts 0.
pub fn little(part: &[u8]) -> u64
    ensures value { result ≡ little 8 part.now }
    ensures upper_bound { result < 256 ^ min 8 (length part.now) }
{
    let mut number: u64 = 0;
    for at in (0..part.len().min(8)).rev() {
        number = number * 256 + part[at] as u64;
    }
    number
}
