// The row in force at a second, of a sample file that comes in chunks of any length: "A row holds until the next."
ghost use Rattle.std.specs.Prelude.{◌≡◌};
ghost use Rattle.rows_in_force.specs.Held.{is_unread, last_comes_in, comes_in, ReachedRight};

use rules::answers::Refusal;
use rules::samples::Sample;
use sample_rows::reader::next_row;
use sheet_stages::stage::Stage;

// What is known of the rows after the one in force.
#[derive(Clone, Copy)]
pub enum Ahead {
    // the next one has to be read before a second can be worked
    Unread,
    // the next one is this, and the file goes on
    Next(Sample),
    // these two are the last
    LastTwo(Sample, Sample),
    // this is the last
    Last(Sample),
    // there is no further row
    Ended,
    // the file was refused after all, so it is not the one that was checked
    Refused(Refusal),
}

impl Ahead {
    // Whether the next row has to be read before a second can be worked.
    pub fn is_unread(self) -> bool
        ensures { result ≡ is_unread self }
    {
        matches!(self, Ahead::Unread)
    }
}

// What the lines so far came to, and how many bytes of a line have begun.
#[derive(Clone, Copy)]
pub struct Begun {
    pub stage: Stage,
    pub len: usize,
}

// The row in force at a second, of the rows that are known; where the next one is unread, it has to be read to tell.
#[derive(Clone, Copy)]
struct InForce {
    now: Sample,
    ahead: Ahead,
}

// The row in force at a second and the rows after it; the chunk is to be read on at `next`. Where the next row is unread, the chunk ends
// before the row in force is known.
#[derive(Clone, Copy)]
pub struct Reached {
    pub begun: Begun,
    pub now: Sample,
    pub ahead: Ahead,
    pub next: usize,
}

// The last row, in force once its second has come.
fn last_comes_in(held: Sample, last: Sample, second: usize) -> InForce
    ensures { result ≡ last_comes_in held last second }
{
    if last.at as usize <= second {
        return InForce {
            now: last,
            ahead: Ahead::Ended,
        };
    }
    InForce {
        now: held,
        ahead: Ahead::Last(last),
    }
}

// Of the rows that are known, the one in force at a second, after the row `held`.
fn comes_in(held: Sample, ahead: Ahead, second: usize) -> InForce
    ensures { result ≡ comes_in held ahead second }
{
    let still = InForce { now: held, ahead };
    match ahead {
        Ahead::Next(row) => {
            if row.at as usize <= second {
                return InForce {
                    now: row,
                    ahead: Ahead::Unread,
                };
            }
            still
        }
        Ahead::LastTwo(next, last) => {
            if next.at as usize <= second {
                return last_comes_in(next, last, second);
            }
            still
        }
        Ahead::Last(last) => last_comes_in(held, last, second),
        Ahead::Unread | Ahead::Ended | Ahead::Refused(_) => still,
    }
}

// The row in force at a second after those that were told, with as many rows of the chunk as it takes.
pub fn reach(told: Reached, line: &[u8; 512], second: usize, chunk: &[u8]) -> Reached
    ensures { ReachedRight told.begun line.now told.now told.ahead second chunk.now told.next result }
{
    let mut begun = told.begun;
    let mut next = told.next.min(chunk.len());
    let mut known = comes_in(told.now, told.ahead, second);
    while known.ahead.is_unread() {
        let further = next_row(begun.stage, line, begun.len, chunk, next);
        begun = Begun {
            stage: further.stage,
            len: further.len,
        };
        next = further.next;
        let Some(row) = further.found else {
            return Reached {
                begun,
                now: known.now,
                ahead: Ahead::Unread,
                next,
            };
        };
        known = comes_in(known.now, Ahead::Next(row), second);
    }
    Reached {
        begun,
        now: known.now,
        ahead: known.ahead,
        next,
    }
}
