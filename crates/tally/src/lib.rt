#![tactic(auto)]
// A count and a checksum of the bytes of a pass: where those of two passes differ, the file changed between them.
ghost use Rattle.std.specs.Prelude.{◌≡◌, ◌≤◌};
ghost use Rattle.tally.specs.Tally.{no_bytes, worth, at_word_end, with_byte, tallied_of, same_tally, WordsTallied, bytes_of};

// How many bytes, the sum of their words of four bytes, and the sum of those sums after each word, which tells bytes and words
// that changed places.
#[derive(Clone, Copy, PartialEq)]
pub struct Tally {
    pub count: u64,
    pub sum: u64,
    pub sums: u64,
}

pub fn no_bytes() -> Tally
    ensures { result ≡ no_bytes }
{
    Tally {
        count: 0,
        sum: 0,
        sums: 0,
    }
}

// What a byte at this place of its word is worth.
fn worth(place: u64, byte: u8) -> u64
    ensures { result ≡ worth place byte }
{
    match place {
        0 => u64::from(byte),
        1 => u64::from(byte) * 256,
        2 => u64::from(byte) * 65536,
        _ => u64::from(byte) * 16777216,
    }
}

// What the sum of the sums gains after the byte at this place.
fn at_word_end(place: u64, sum: u64) -> u64
    ensures { result ≡ at_word_end place sum }
{
    match place {
        0..=2 => 0,
        _ => sum,
    }
}

// One byte more.
fn with_byte(before: Tally, byte: u8) -> Tally
    ensures { result ≡ with_byte before byte }
{
    let place = before.count % 4;
    let sum = before.sum.wrapping_add(worth(place, byte));
    Tally {
        count: before.count.wrapping_add(1),
        sum,
        sums: before.sums.wrapping_add(at_word_end(place, sum)),
    }
}

// Bytes more, one by one.
fn with_bytes(before: Tally, bytes: &[u8]) -> Tally
    ensures { result ≡ tallied_of before bytes.now }
{
    let mut tally = before;
    for byte in bytes {
        tally = with_byte(tally, *byte);
    }
    tally
}

// One word more, where a word begins: four bytes at once, the first of them the lowest.
fn with_word(before: Tally, word: [u8; 4]) -> Tally
    ensures { WordsTallied before word result }
{
    let sum = before.sum.wrapping_add(u64::from(u32::from_le_bytes(word)));
    Tally {
        count: before.count.wrapping_add(4),
        sum,
        sums: before.sums.wrapping_add(sum),
    }
}

fn with_words(before: Tally, words: &[[u8; 4]]) -> Tally
    ensures { WordsTallied before (bytes_of words.now) result }
{
    let mut tally = before;
    for word in words {
        tally = with_word(tally, *word);
    }
    tally
}

// How many bytes there are to the end of the word that has begun, of so many.
fn to_word_end(count: u64, len: usize) -> usize
    ensures { result ≤ len }
{
    match count % 4 {
        0 => 0,
        begun => len.min(4 - begun as usize),
    }
}

// With the bytes of a chunk after those before.
pub fn tallied(before: Tally, chunk: &[u8]) -> Tally
    ensures { result ≡ tallied_of before chunk.now }
{
    let (head, rest) = chunk.split_at(to_word_end(before.count, chunk.len()));
    let begun = with_bytes(before, head);
    if begun.count % 4 != 0 {
        return with_bytes(begun, rest);
    }
    let (words, last) = rest.as_chunks::<4>();
    with_bytes(with_words(begun, words), last)
}

// Whether two passes had the same count and checksum.
pub fn same_tally(a: Tally, b: Tally) -> bool
    ensures { result ≡ same_tally a b }
{
    a == b
}
