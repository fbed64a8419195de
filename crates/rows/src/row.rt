// "Each number is written after the comma already in the line buffer; a second answers the row's length, LF counted, and bytes past the row stay."
ghost use Rattle.std.specs.Prelude.{◌≡◌};
ghost use Rattle.rules.specs.Row.{columns};
ghost use Rattle.rows.specs.Written.{RowPut};

use decimals::numbers::{put_commaed, put_numbers};
use rules::answers::Refusal;
use rules::limits::LEAST_ROW_BUFFER;
use rules::run::Row;

// So many of a row's numbers, whatever they are, have room in the least row buffer; so have the others after them, since these have 32 bits.
const FIRST: usize = 8;

// A row's thirteen numbers, in the heading's order.
pub fn numbers_of(row: Row) -> [u64; 13]
    ensures { result ≡ columns row }
{
    let watts = row.watts;
    [
        row.second as u64,
        watts.load as u64,
        watts.shed as u64,
        watts.solar as u64,
        watts.charge as u64,
        watts.spill as u64,
        watts.give as u64,
        watts.diesel as u64,
        watts.unserved as u64,
        row.on as u64,
        row.sets as u64,
        row.call as u64,
        row.store,
    ]
}

// A row at the front of a lent buffer.
pub fn put_row(row: Row, buffer: &mut [u8]) -> Result<usize, Refusal>
    ensures { RowPut row buffer.old result buffer.new }
{
    if buffer.len() < LEAST_ROW_BUFFER {
        return Err(Refusal::RowBuffer);
    }
    let numbers = numbers_of(row);
    let first = put_commaed(&numbers[..FIRST], 0, buffer);
    Ok(put_numbers(&numbers[FIRST..], first, buffer))
}
