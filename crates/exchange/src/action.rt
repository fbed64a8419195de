// What a program asks for next.
use rules::answers::Refusal;

// Why there is no complete answer. A file is named by the place of its path among the arguments.
#[derive(Clone, Copy)]
pub enum Why {
    // the program was called with other arguments than it has
    WrongCall,
    // the program was built with a buffer that is too small
    SmallBuffer,
    Unopened(usize),
    Unread(usize),
    // the file cannot be read from its start again
    ReadOnce(usize),
    // two passes over the file did not read the same bytes
    Changed(usize),
    // standard output did not take the bytes
    Unwritten,
    // what came of an action was no answer to it, or the answer broke off
    Broken,
}

// What a program ends with.
#[derive(Clone, Copy)]
pub enum Word {
    // standard output has the whole answer
    Complete,
    // standard output has this refusal's line
    Refused(Refusal),
    // there is no complete answer
    Nothing(Why),
}

// The end of every buffer, for a part that goes as far as the buffer does.
pub const BUFFER_END: usize = usize::MAX;

#[derive(Clone, Copy)]
pub enum Action {
    // how many arguments there are, the program's own name among them
    Count,
    // an argument's own bytes, into the buffer
    Argument(usize),
    // the file that an argument names
    Open(usize),
    // a file's next bytes, into the part of the buffer from one place up to another, or up to its end
    Read(usize, usize, usize),
    // back to a file's first byte
    Rewind(usize),
    // the first bytes of the output buffer, to standard output
    Write(usize),
    Stop(Word),
}
