// The other lines that a program prints, each at the front of a lent buffer: the two headings, a set's line, a refusal, and that files
// are accepted.
ghost use Rattle.std.specs.Prelude.{◌≤◌, length};
ghost use Rattle.rules.specs.Row.{row_heading, set_heading, refusal_line};
ghost use Rattle.rows.specs.AnswerLine.{refused_line, accepted_line};
ghost use Rattle.rows.specs.SetLine.{set_line};
ghost use Rattle.rows.specs.Written.{TextPut};

use decimals::numbers::put_numbers;
use rules::answers::Refusal;
use rules::limits::LEAST_ROW_BUFFER;
use rules::run::SetState;
use texts::put_text;
use words::refusals::NumberAndPlace;

// A line that any buffer of the least size has room for.
fn put_line(line: &[u8], buffer: &mut [u8]) -> Result<usize, Refusal>
    requires { length line.now ≤ 256 }
    ensures { TextPut line.now buffer.old result buffer.new }
{
    if buffer.len() < LEAST_ROW_BUFFER {
        return Err(Refusal::RowBuffer);
    }
    Ok(put_text(line, 0, buffer))
}

// The heading of the rows.
pub fn put_row_heading(buffer: &mut [u8]) -> Result<usize, Refusal>
    ensures { TextPut row_heading buffer.old result buffer.new }
{
    put_line(
        b"t,load,shed,solar,charge,spill,give,diesel,unserved,on,sets,call,store\n",
        buffer,
    )
}

// The heading of the sets' lines.
pub fn put_set_heading(buffer: &mut [u8]) -> Result<usize, Refusal>
    ensures { TextPut set_heading buffer.old result buffer.new }
{
    put_line(b"set,run,starts,stops,energy,fuel\n", buffer)
}

// The line of the set that has this number, counted from 1.
pub fn put_set_line(number: u32, state: SetState, buffer: &mut [u8]) -> Result<usize, Refusal>
    ensures { TextPut (set_line number state) buffer.old result buffer.new }
{
    if buffer.len() < LEAST_ROW_BUFFER {
        return Err(Refusal::RowBuffer);
    }
    let columns = [
        number as u64,
        state.run as u64,
        state.starts as u64,
        state.stops as u64,
        state.energy,
        state.fuel,
    ];
    Ok(put_numbers(&columns, 0, buffer))
}

// "refused,number,place": all that a refused run prints.
pub fn put_refusal(number: u64, place: u64, buffer: &mut [u8]) -> Result<usize, Refusal>
    ensures { TextPut (refusal_line number place) buffer.old result buffer.new }
{
    if buffer.len() < LEAST_ROW_BUFFER {
        return Err(Refusal::RowBuffer);
    }
    let at = put_text(b"refused,", 0, buffer);
    let columns = [number, place];
    Ok(put_numbers(&columns, at, buffer))
}

// The same of a refusal as the functions answer it.
pub fn put_refused(refusal: Refusal, buffer: &mut [u8]) -> Result<usize, Refusal>
    ensures { TextPut (refused_line refusal) buffer.old result buffer.new }
{
    let answer = NumberAndPlace::from(refusal);
    put_refusal(answer.number, answer.place, buffer)
}

// All that a program prints whose whole answer is that its files are in order.
pub fn put_accepted(buffer: &mut [u8]) -> Result<usize, Refusal>
    ensures { TextPut accepted_line buffer.old result buffer.new }
{
    put_line(b"accepted\n", buffer)
}
