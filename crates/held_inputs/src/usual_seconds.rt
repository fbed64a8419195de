// The seconds that usual rows tell, one after the other: the loop carries numbers alone, since enums by value cost more than the rows.
ghost use Rattle.std.specs.Prelude.{◌≡◌, ◌≤◌};
ghost use Rattle.held_inputs.specs.Filling.{fill_state_at, places_of, GoesOn};

use rows_in_force::in_force::{Ahead, Begun, Reached};
use rules::samples::Sample;
use sheet_headings::headings::Columns;
use sheet_stages::stage::{Stage, next_line};
use usual_rows::usual::usual_later;

// So many seconds were told, and what was reached with them.
#[derive(Clone, Copy)]
pub(crate) struct FillState {
    pub(crate) reached: Reached,
    pub(crate) seconds: usize,
}

// The row in force and the next one, the last that was read, after so many lines.
fn fill_state_at(
    columns: Columns,
    lines: u64,
    now: Sample,
    row: Sample,
    next: usize,
    seconds: usize,
) -> FillState
    ensures { result ≡ fill_state_at columns lines now row next seconds }
{
    FillState {
        reached: Reached {
            begun: Begun {
                stage: Stage::LaterRows(columns, row.at, lines),
                len: 0,
            },
            now,
            ahead: Ahead::Next(row),
            next,
        },
        seconds,
    }
}

// Where usual rows stand: the columns, the lines counted, the row in force, and the next one, which is the last that was read.
#[derive(Clone, Copy)]
struct UsualRows {
    columns: Columns,
    lines: u64,
    held: Sample,
    ahead: Sample,
}

// The seconds after the first `from`, as far as usual rows of the chunk tell them.
fn fill_usual(
    rows: UsualRows,
    at: usize,
    from: usize,
    first: usize,
    places: usize,
    chunk: &[u8],
    loads: &mut [u32],
    solars: &mut [u32],
    sheddables: &mut [u32],
) -> FillState
    requires { (first ≤ 4294967295) × (places ≤ places_of loads.old solars.old sheddables.old) }
    ensures { GoesOn (fill_state_at rows.columns rows.lines rows.held rows.ahead at from) first places chunk.now loads.old solars.old sheddables.old result loads.new solars.new sheddables.new }
{
    let columns = rows.columns;
    let mut line = rows.lines;
    let mut now = rows.held;
    let mut row = rows.ahead;
    let mut next = at;
    let mut i = from;
    while i < places {
        if first + i < row.at as usize {
            loads[i] = now.load;
            solars[i] = now.solar;
            sheddables[i] = now.sheddable;
            i += 1;
            continue;
        }
        let Some(later) = usual_later(columns, row.at, chunk, next) else {
            return fill_state_at(columns, line, now, row, next, i);
        };
        line = next_line(line);
        now = row;
        row = later.sample;
        next = later.next;
    }
    fill_state_at(columns, line, now, row, next, i)
}

// The same after any seconds; there are none where the next row is not known, or a line has begun.
pub(crate) fn usual_seconds(
    told: FillState,
    first: usize,
    places: usize,
    chunk: &[u8],
    loads: &mut [u32],
    solars: &mut [u32],
    sheddables: &mut [u32],
) -> FillState
    requires { (first ≤ 4294967295) × (places ≤ places_of loads.old solars.old sheddables.old) }
    ensures { GoesOn told first places chunk.now loads.old solars.old sheddables.old result loads.new solars.new sheddables.new }
{
    let reached = told.reached;
    let Stage::LaterRows(columns, last, lines) = reached.begun.stage else {
        return told;
    };
    let Ahead::Next(row) = reached.ahead else {
        return told;
    };
    if 0 < reached.begun.len || last != row.at {
        return told;
    }
    let rows = UsualRows {
        columns,
        lines,
        held: reached.now,
        ahead: row,
    };
    fill_usual(
        rows,
        reached.next,
        told.seconds,
        first,
        places,
        chunk,
        loads,
        solars,
        sheddables,
    )
}
