// Lists of numbers where a line goes on. They are put where any so many numbers have room, so that no digits are counted, and else not begun.
ghost use Rattle.std.specs.Prelude.{◌≡◌, ◌+◌, ◌*◌, ◌≤◌, ◌<◌, leb, length};
ghost use Rattle.rules.specs.Bytes.{comma, decimal, comma_line};
ghost use Rattle.decimals.specs.Commaed.{ended, commaed, line_of, most_bytes};
ghost use Rattle.texts.specs.Placed.{placed, PutAt};

use crate::decimal::put_long_decimal;

const COMMA: u8 = 44;

const LF: u8 = 10;

// A number of 64 bits has at most 20 digits, and the byte after them.
const MOST_BYTES: usize = 21;

// A number from `at` on and the comma after it: where the line goes on. Most numbers of a row have one digit, and are put without a call.
fn put_number(number: u64, at: usize, buffer: &mut [u8]) -> usize
    requires { at + length (decimal number) < length buffer.old }
    ensures { (result ≡ at + length (ended number comma)) × (buffer.new ≡ placed buffer.old at (ended number comma)) }
{
    if number < 10 {
        buffer[at] = (48 + number) as u8;
        buffer[at + 1] = COMMA;
        return at + 2;
    }
    let end = at + put_long_decimal(number, &mut buffer[at..]);
    buffer[end] = COMMA;
    end + 1
}

// Numbers that have room from `at` on, each with a comma after it: where the line goes on.
fn write_commaed(numbers: &[u64], at: usize, buffer: &mut [u8]) -> usize
    requires { at + length (commaed numbers.now) ≤ length buffer.old }
    ensures { (result ≡ at + length (commaed numbers.now)) × (buffer.new ≡ placed buffer.old at (commaed numbers.now)) }
{
    let mut end = at;
    for number in numbers {
        end = put_number(*number, end, buffer);
    }
    end
}

// Numbers that have room from `at` on, a comma between each two and LF after the last: where the line ends.
fn write_line(numbers: &[u64], at: usize, buffer: &mut [u8]) -> usize
    requires { (1 ≤ length numbers.now) × (at + length (comma_line numbers.now) ≤ length buffer.old) }
    ensures { (result ≡ at + length (comma_line numbers.now)) × (buffer.new ≡ placed buffer.old at (comma_line numbers.now)) }
{
    let last = numbers.len() - 1;
    let comma = write_commaed(&numbers[..last], at, buffer);
    // called here too, the writer of long numbers stays a function of its own, and the loop over the others small
    let end = comma + put_long_decimal(numbers[last], &mut buffer[comma..]);
    buffer[end] = LF;
    end + 1
}

// Whether so many numbers have room from `at` on in so many bytes, whatever they are.
fn has_room(count: usize, at: usize, size: usize) -> bool
    ensures { result ≡ leb (at + 21 * count) size }
{
    if size < at {
        return false;
    }
    count <= (size - at) / MOST_BYTES
}

// Numbers from `at` on, each with a comma after it: where the line goes on.
pub fn put_commaed(numbers: &[u64], at: usize, buffer: &mut [u8]) -> usize
    ensures { PutAt (most_bytes numbers.now) (commaed numbers.now) at buffer.old result buffer.new }
{
    if !has_room(numbers.len(), at, buffer.len()) {
        return at;
    }
    write_commaed(numbers, at, buffer)
}

// Numbers from `at` on, a comma between each two and LF after the last: where the line ends. No numbers have no line.
pub fn put_numbers(numbers: &[u64], at: usize, buffer: &mut [u8]) -> usize
    ensures { PutAt (most_bytes numbers.now) (line_of numbers.now) at buffer.old result buffer.new }
{
    if numbers.len() == 0 {
        return at;
    }
    if !has_room(numbers.len(), at, buffer.len()) {
        return at;
    }
    write_line(numbers, at, buffer)
}
