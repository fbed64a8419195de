// Bytes of a file or an argument, of which those that are not printable are shown by their numbers.
use crate::texts::say;
use std::fmt;
use std::io::Write;

// How many bytes of a heading or cell a message shows.
const MOST_SHOWN: usize = 40;

// A backslash is shown by its number too, so that no two texts look the same.
fn is_plain(byte: u8) -> bool {
    matches!(byte, b' '..=b'~') && byte != b'\\'
}

// A part as it is shown: no more than its first `most` bytes.
#[derive(Clone, Copy)]
struct Shown<'a> {
    part: &'a [u8],
    most: usize,
}

impl fmt::Display for Shown<'_> {
    fn fmt<W: fmt::Write>(&self, f: &mut fmt::Formatter<W>) -> fmt::Result {
        for byte in self.part.iter().take(self.most) {
            if is_plain(*byte) {
                f.write_char(char::from(*byte))?;
            } else {
                write!(f, "\\x{byte:02x}")?;
            }
        }
        Ok(())
    }
}

fn first_of(part: &[u8]) -> Shown<'_> {
    Shown {
        part,
        most: MOST_SHOWN,
    }
}

// A part in quotes, and `..` where it has more bytes than are shown.
pub fn show<W: Write>(err: &mut W, part: &[u8]) {
    let _ = write!(err, "'{}'", first_of(part));
    if MOST_SHOWN < part.len() {
        say(err, b"..");
    }
}

// A part that needs no quotes, as a heading that is known.
pub fn show_bare<W: Write>(err: &mut W, part: &[u8]) {
    let _ = write!(err, "{}", first_of(part));
}

// A path is shown whole, since its end names the file.
pub fn show_path<W: Write>(err: &mut W, path: &[u8]) {
    let whole = Shown {
        part: path,
        most: path.len(),
    };
    let _ = write!(err, "'{whole}'");
}
