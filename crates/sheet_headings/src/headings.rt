// The heading line: "`t` first, then LoadP, PvAvailP, ShedLoadP once each in any order".
ghost use Rattle.std.specs.Prelude.{◌≡◌, [], ◌∷◌, drop};
ghost use Rattle.rules.specs.Answers.{accepted, ◌>>=◌ as ◌then◌};
ghost use Rattle.rules.specs.SampleFile.{sample_sheet, name_of, headings, heading_line};
ghost use Rattle.sheet_headings.specs.Headings.{headed_of, columns_of};

use crate::cells::cell_at;
use rules::answers::Refusal;
use rules::limits::MOST_LINE;

// Which name each column after the time's has, by its place among the names: 1 LoadP, 2 PvAvailP, 3 ShedLoadP.
#[derive(Clone, Copy)]
pub struct Columns {
    pub second: u8,
    pub third: u8,
    pub fourth: u8,
}

// A heading's place among the names, and 4 where it is none of them.
pub fn name_of(heading: &[u8]) -> u8
    ensures { result ≡ name_of sample_sheet.names heading.now }
{
    if heading == b"t".as_slice() {
        return 0;
    }
    if heading == b"LoadP".as_slice() {
        return 1;
    }
    if heading == b"PvAvailP".as_slice() {
        return 2;
    }
    if heading == b"ShedLoadP".as_slice() {
        return 3;
    }
    4
}

// One heading more, after the columns that were read: the latest of them is the fourth, and each that is still to be read
// has 0, the time's name, which no heading after the first may have.
fn with_heading(read: Columns, heading: &[u8]) -> Result<Columns, Refusal>
    ensures { headed_of result ≡ (headings sample_sheet.names (columns_of read) (heading.now ∷ []) then λ columns. accepted (0 ∷ drop 2 columns)) }
{
    if heading.is_empty() {
        return Err(Refusal::HeadingBlank(1));
    }
    let name = name_of(heading);
    if 3 < name {
        return Err(Refusal::HeadingUnknown(1));
    }
    if (name == 0) | (name == read.second) | (name == read.third) | (name == read.fourth) {
        return Err(Refusal::HeadingTwice(1));
    }
    Ok(Columns {
        second: read.third,
        third: read.fourth,
        fourth: name,
    })
}

// "Heading line: 11, 16, left to right 12, 13, 14, then 15." `size` is the line's length without the LF.
pub fn heading_line(size: usize, text: &[u8]) -> Result<Columns, Refusal>
    ensures { headed_of result ≡ heading_line sample_sheet.names (record { size = size; text = text.now }) }
{
    if MOST_LINE < size {
        return Err(Refusal::LineLength(1));
    }
    let first = cell_at(text, 0);
    if 0 < name_of(first) {
        return Err(Refusal::FirstHeading(1));
    }
    let mut read = Columns {
        second: 0,
        third: 0,
        fourth: 0,
    };
    let mut end = first.len();
    while end < text.len() {
        let heading = cell_at(text, end + 1);
        read = with_heading(read, heading)?;
        end = end + 1 + heading.len();
    }
    if read.second == 0 {
        return Err(Refusal::HeadingMissing(1));
    }
    Ok(read)
}
