#![tactic(auto)]
// A text in a buffer that the caller lends, from a place on. One that has no room there is not begun.
ghost use Rattle.std.specs.Prelude.{length};
ghost use Rattle.texts.specs.Placed.{PutAt};

// A text from `at` on: where it ends.
pub fn put_text(text: &[u8], at: usize, buffer: &mut [u8]) -> usize
    ensures { PutAt (length text.now) text.now at buffer.old result buffer.new }
{
    if buffer.len() < at {
        return at;
    }
    if buffer.len() - at < text.len() {
        return at;
    }
    let end = at + text.len();
    buffer[at..end].copy_from_slice(text);
    end
}
