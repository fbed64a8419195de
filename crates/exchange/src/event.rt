// What came of an action.
#[derive(Clone, Copy)]
pub enum Event {
    // it was done
    Done,
    // so many arguments
    Count(usize),
    // so many bytes stand in the part of the buffer that was asked for, from its start on
    Read(usize),
    // the file has no further byte
    End,
    Failed,
}
