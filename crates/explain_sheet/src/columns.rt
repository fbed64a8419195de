// The headings or cells of a line by their places, counted from 0, with the functions that the check itself uses.
use sheet_headings::cells::cell_at;
use sheet_headings::headings::name_of;

// One byte more than a line may have: who has that many needs no more to know that it is too long.
pub const MOST_HELD: usize = 513;

// Where a cell starts; past the line's end where the line has no such cell.
fn start_of(line: &[u8], place: usize) -> usize {
    let mut at = 0;
    for _ in 0..place {
        let end = byte_search::find(line, at, line.len(), b',');
        if line.len() <= end {
            return usize::MAX;
        }
        at = end + 1;
    }
    at
}

// The heading or cell at a place, nothing where the line has none there.
pub(crate) fn part_at(line: &[u8], place: usize) -> &[u8] {
    cell_at(line, start_of(line, place))
}

// How many headings or cells a line has: an empty line has one, which is blank.
pub(crate) fn parts_of(line: &[u8]) -> usize {
    let held = line.len().min(MOST_HELD);
    let commas = line[..held].iter().filter(|byte| **byte == b',').count();
    commas + 1
}

// The name of the column at a place, by its place among the names.
pub(crate) fn name_at(headings: &[u8], place: usize) -> u8 {
    name_of(part_at(headings, place))
}

// The first column that has this name.
pub(crate) fn column_of(headings: &[u8], name: u8) -> Option<usize> {
    (0..parts_of(headings)).find(|place| name_at(headings, *place) == name)
}
