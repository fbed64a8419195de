// A writer that is told nobody's failures, so that a message goes on after a piece that could not be written.
ghost use Rattle.std.specs.Prelude.{◌≡◌, Ok};

use std::io;
use std::io::{IsTerminal, Write};

// What a write that fails does not take is left out, and no more: who says a message by `write!` says all its pieces.
#[derive(Drop)]
pub struct Heedless<W>(pub W);

impl<W: Write> Write for Heedless<W> {
    fn write(&mut self, buf: &[u8]) -> io::Result<usize> {
        Ok(self.0.write(buf).unwrap_or(buf.len()))
    }

    fn flush(&mut self) -> io::Result<()>
        ensures { result ≡ Ok tt }
    {
        let _ = self.0.flush();
        Ok(())
    }

    fn write_all(&mut self, buf: &[u8]) -> io::Result<()>
        ensures { result ≡ Ok tt }
    {
        let _ = self.0.write_all(buf);
        Ok(())
    }
}

impl<W: IsTerminal> IsTerminal for Heedless<W> {
    fn is_terminal(&self) -> bool {
        self.0.is_terminal()
    }
}
