// 1, 2, 3: the size of a file and its table of contents.
ghost use Rattle.std.specs.Prelude.{◌≡◌, ◌≤◌, ◌<◌, length};
ghost use Rattle.rules.specs.Answers.{result_of};
ghost use Rattle.rules.specs.StationFile.{count_at, entry_right, contents_right};

use crate::numbers::number_at;
use rules::answers::Refusal;
use station_fields::layout;
use station_fields::layout::{
    BATTERY_AT, BATTERY_ENTRY, BATTERY_PART, CONFIGURATION_SIZE, CONFIGURATIONS_ENTRY,
    CONFIGURATIONS_PART, CONTROL_AT, CONTROL_ENTRY, CONTROL_PART, SET_SIZE, SETS_AT, SETS_ENTRY,
    SETS_PART,
};

// The count that the entry at this place has.
pub(crate) fn count_at(s: &[u8], place: usize) -> u64
    requires { (32 ≤ length s.now) × (place ≤ 3) }
    ensures value { result ≡ count_at s.now place }
    ensures upper_bound { result < 65536 }
{
    number_at(
        s,
        layout::ENTRY_SIZE * place + layout::ENTRY_COUNT,
        layout::ENTRY_COUNT_WIDTH,
    )
}

fn entry_right(s: &[u8], place: usize, part: layout::Part, offset: usize) -> bool
    requires { (32 ≤ length s.now) × (place ≤ 3) }
    ensures { result ≡ entry_right s.now place part.kind part.least part.most offset }
{
    let at = layout::ENTRY_SIZE * place;
    let count = count_at(s, place);
    (number_at(s, at + layout::ENTRY_KIND, layout::ENTRY_KIND_WIDTH) == part.kind)
        & ((part.least <= count) & (count <= part.most))
        & (number_at(s, at + layout::ENTRY_OFFSET, layout::ENTRY_OFFSET_WIDTH) == offset as u64)
}

pub(crate) fn contents_right(s: &[u8]) -> Result<(), Refusal>
    ensures { result_of result ≡ contents_right s.now }
{
    let size = s.len();
    if size < layout::LEAST_FILE {
        return Err(Refusal::StationSize);
    }
    if layout::MOST_FILE < size {
        return Err(Refusal::StationSize);
    }
    if !entry_right(s, CONTROL_ENTRY, CONTROL_PART, CONTROL_AT) {
        return Err(Refusal::ContentsEntry(1));
    }
    if !entry_right(s, BATTERY_ENTRY, BATTERY_PART, BATTERY_AT) {
        return Err(Refusal::ContentsEntry(2));
    }
    if !entry_right(s, SETS_ENTRY, SETS_PART, SETS_AT) {
        return Err(Refusal::ContentsEntry(3));
    }
    let configs_at = SETS_AT + SET_SIZE * count_at(s, SETS_ENTRY) as usize;
    if !entry_right(s, CONFIGURATIONS_ENTRY, CONFIGURATIONS_PART, configs_at) {
        return Err(Refusal::ContentsEntry(4));
    }
    if size != configs_at + CONFIGURATION_SIZE * count_at(s, CONFIGURATIONS_ENTRY) as usize {
        return Err(Refusal::ContentsSize);
    }
    Ok(())
}
