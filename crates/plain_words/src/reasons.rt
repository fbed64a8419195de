// The system's reason for what failed, in its own words.
use crate::texts::say;
use std::io::{Cursor, Error, Write};

// What stands between a reason's words and its number.
const BEFORE_NUMBER: &str = " (os error ";

// The words alone, without the number that comes after them.
fn words_of(text: &str) -> &str {
    text.rsplit_once(BEFORE_NUMBER)
        .map_or(text, |(words, _)| words)
}

fn say_words<W: Write>(err: &mut W, text: &[u8]) {
    if let Ok(text) = str::from_utf8(text) {
        say(err, words_of(text).as_bytes());
    }
}

// A line with what failed, as the caller names it, a colon and the reason.
pub fn fail<W: Write>(err: &mut W, what: &[u8], reason: Error) {
    let mut text = Cursor::new([0u8; 128]);
    let _ = write!(text, "{reason}");
    say(err, what);
    say(err, b": ");
    let size = text.position() as usize;
    let text = text.into_inner();
    if size <= text.len() {
        say_words(err, &text[..size]);
    }
    say(err, b"\n");
}
