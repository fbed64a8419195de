// A row as thirteen numbers in lent rows.
ghost use Rattle.std.specs.Prelude.{◌≡◌, ◌≤◌, ◌++◌, length, drop};
ghost use Rattle.rows.specs.RowNumbers.{row_first};

use crate::row::numbers_of;
use rules::limits::ROW_COLUMNS;
use rules::run::Row;

// Thirteen numbers at the front, one by one: a copy of the slice would be made of them first.
fn put_columns(columns: [u64; 13], rows: &mut [u64])
    requires { 13 ≤ length rows.old }
    ensures { rows.new ≡ columns ++ drop 13 rows.old }
{
    for i in 0..ROW_COLUMNS {
        rows[i] = columns[i];
    }
}

// The row at the front; rows that have no place for it stay as they are.
pub fn put_row_numbers(row: Row, rows: &mut [u64])
    ensures { rows.new ≡ row_first row rows.old }
{
    if rows.len() < ROW_COLUMNS {
        return;
    }
    put_columns(numbers_of(row), rows);
}
