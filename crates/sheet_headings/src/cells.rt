// "A heading or cell is handed back as the part of the line that it is": the one reader of both.
ghost use Rattle.std.specs.Prelude.{◌≡◌, length, take, drop};
ghost use Rattle.sheet_headings.specs.Cells.{cell_from};

// The heading or cell that starts at a place of the line, up to the next comma or the line's end; nothing past the line's end.
pub fn cell_at(line: &[u8], at: usize) -> &[u8]
    ensures result_value { result.now ≡ cell_from line.now at }
    ensures result_value_2 { result.now ≡ take (length result.now) (drop at line.now) }
{
    if at <= line.len() {
        let end = byte_search::find(line, at, line.len(), b',');
        &line[at..end]
    } else {
        &line[..0]
    }
}
