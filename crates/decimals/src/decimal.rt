// The decimal numbers of a line, without a copy: each is written where the line goes on, four digits at a time.
ghost use Rattle.std.specs.Prelude.{◌≡◌, ◌+◌, ◌≤◌, ◌<◌, length};
ghost use Rattle.rules.specs.Bytes.{decimal};
ghost use Rattle.decimals.specs.Commaed.{last_digits};
ghost use Rattle.texts.specs.Placed.{Front, placed};

// The digit 0 in each of a word's four bytes.
const FOUR_ZEROS: u32 = 808_464_432;

// A number of one digit at the start of the row buffer's tail.
fn put_digit(number: u32, tail: &mut [u8]) -> usize
    requires { (number < 10) × (length (decimal number) ≤ length tail.old) }
    ensures { Front tail.old (decimal number) result tail.new }
{
    tail[0] = (48 + number) as u8;
    1
}

// Two digits from `at` on.
fn put_pair(number: u32, at: usize, tail: &mut [u8])
    requires { (number < 100) × (at + 2 ≤ length tail.old) }
    ensures { tail.new ≡ placed tail.old at (last_digits 2 number) }
{
    tail[at] = (48 + number / 10) as u8;
    tail[at + 1] = (48 + number % 10) as u8;
}

// Four digits from `at` on. Their two pairs stand in the halves of one word, and 103 / 1024 finds the tens of both at once.
fn put_four(number: u32, at: usize, tail: &mut [u8])
    requires { (number < 10000) × (at + 4 ≤ length tail.old) }
    ensures { tail.new ≡ placed tail.old at (last_digits 4 number) }
{
    let pairs = number / 100 + 65536 * (number % 100);
    let tenths = pairs * 103 / 1024;
    let tens = tenths % 16 + tenths / 65536 * 65536;
    let word = FOUR_ZEROS + 256 * pairs - 2559 * tens;
    tail[at] = (word % 256) as u8;
    tail[at + 1] = (word / 256 % 256) as u8;
    tail[at + 2] = (word / 65536 % 256) as u8;
    tail[at + 3] = (word / 16777216) as u8;
}

// Eight digits from `at` on.
fn put_eight(number: u32, at: usize, tail: &mut [u8])
    requires { (number < 100000000) × (at + 8 ≤ length tail.old) }
    ensures { tail.new ≡ placed tail.old at (last_digits 8 number) }
{
    put_four(number / 10000, at, tail);
    put_four(number % 10000, at + 4, tail);
}

// A number of at most four digits at the start of the tail, and how many it has.
fn put_short(number: u32, tail: &mut [u8]) -> usize
    requires { (number < 10000) × (length (decimal number) ≤ length tail.old) }
    ensures { Front tail.old (decimal number) result tail.new }
{
    if number < 10 {
        return put_digit(number, tail);
    }
    if number < 100 {
        put_pair(number, 0, tail);
        return 2;
    }
    if number < 1000 {
        let digits = put_digit(number / 100, tail);
        put_pair(number % 100, digits, tail);
        return digits + 2;
    }
    put_four(number, 0, tail);
    4
}

// Writes the number at the start of the row buffer's tail, and answers how many digits it has.
fn put_decimal(number: u32, tail: &mut [u8]) -> usize
    requires { length (decimal number) ≤ length tail.old }
    ensures { Front tail.old (decimal number) result tail.new }
{
    if number < 10_000 {
        return put_short(number, tail);
    }
    if number < 100_000_000 {
        let digits = put_short(number / 10_000, tail);
        put_four(number % 10_000, digits, tail);
        return digits + 4;
    }
    let digits = put_short(number / 100_000_000, tail);
    put_eight(number % 100_000_000, digits, tail);
    digits + 8
}

// The same for a number of 64 bits.
pub(crate) fn put_long_decimal(number: u64, tail: &mut [u8]) -> usize
    requires { length (decimal number) ≤ length tail.old }
    ensures { Front tail.old (decimal number) result tail.new }
{
    if number < 100_000_000 {
        return put_decimal(number as u32, tail);
    }
    let high = number / 100_000_000;
    let low = (number % 100_000_000) as u32;
    if high < 100_000_000 {
        let digits = put_decimal(high as u32, tail);
        put_eight(low, digits, tail);
        return digits + 8;
    }
    let digits = put_decimal((high / 100_000_000) as u32, tail);
    put_eight((high % 100_000_000) as u32, digits, tail);
    put_eight(low, digits + 8, tail);
    digits + 16
}
