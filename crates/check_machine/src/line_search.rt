// A line of the sample file by its number, from a second pass, for the message about it.
ghost use Rattle.std.specs.Prelude.{◌≡◌, ◌≤◌, ◌-◌, IfOk, length, take, drop};

// One byte more than a line may have: who has that many needs no more to know that it is too long.
pub const MOST_HELD: usize = 513;

// The first bytes of a line.
#[derive(Clone, Copy)]
pub struct Line {
    pub text: [u8; MOST_HELD],
    pub len: usize,
}

// How far the search for a line has come.
#[derive(Clone, Copy)]
pub enum Sought {
    // line ends still to pass
    Before(u64),
    // the line's bytes so far
    Begun(Line),
    Found(Line),
}

// The end of the chunk that follows so many line ends, or how many more there have to be.
fn past_lines(lines: u64, chunk: &[u8]) -> Result<&[u8], u64>
    ensures { IfOk result (λ rest. (length rest.now ≤ length chunk.now) × (rest.now ≡ drop (length chunk.now - length rest.now) chunk.now)) }
{
    let mut rest = chunk;
    for passed in 0..lines {
        let end = byte_search::find(rest, 0, rest.len(), b'\n');
        if end == rest.len() {
            return Err(lines - passed);
        }
        rest = &rest[end + 1..];
    }
    Ok(rest)
}

impl Line {
    fn new() -> Line {
        Line {
            text: [0; MOST_HELD],
            len: 0,
        }
    }

    pub fn bytes(&self) -> &[u8]
        ensures { result.now ≡ take self.now.len self.now.text }
    {
        match self.text.get(..self.len) {
            Some(part) => part,
            None => &self.text,
        }
    }

    // "one CR just before it is dropped", of a line that has its LF.
    fn without_cr(mut self) -> Line {
        if self.bytes().ends_with(b"\r") {
            self.len -= 1;
        }
        self
    }

    // The line goes on with the chunk's bytes, up to its LF.
    fn continued(self, chunk: &[u8]) -> Sought {
        let Line { mut text, mut len } = self;
        for byte in chunk {
            if MOST_HELD <= len {
                return Sought::Found(Line { text, len });
            }
            if *byte == b'\n' {
                return Sought::Found(Line { text, len }.without_cr());
            }
            text[len] = *byte;
            len += 1;
        }
        Sought::Begun(Line { text, len })
    }
}

impl Sought {
    // With the next bytes of the file.
    pub(crate) fn continued(self, chunk: &[u8]) -> Sought {
        match self {
            Sought::Before(lines) => match past_lines(lines, chunk) {
                Ok(rest) => Line::new().continued(rest),
                Err(left) => Sought::Before(left),
            },
            Sought::Begun(line) => line.continued(chunk),
            Sought::Found(_) => self,
        }
    }

    // The end of the file ends its last line too.
    pub(crate) fn ended(self) -> Sought {
        match self {
            Sought::Before(0) => Sought::Found(Line::new()),
            Sought::Begun(line) => Sought::Found(line),
            Sought::Before(_) | Sought::Found(_) => self,
        }
    }
}
