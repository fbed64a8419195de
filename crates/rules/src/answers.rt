// What a call answers. `specs/Answers.antt` gives document 01's number, place and value for each case.

// A fault that document 01 numbers. Those that it gives a place carry it: an entry, a set, a configuration or a line,
// counted from 1, and 0 where a call refuses its own numbers and no file's.
#[derive(Clone, Copy)]
pub enum Refusal {
    StationSize,
    ContentsEntry(u32),
    ContentsSize,
    ControlValue,
    BatteryValue,
    SetNumber(u32),
    SetPairs(u32),
    ConfigurationMask(u32),
    LineLength(u64),
    HeadingBlank(u64),
    HeadingUnknown(u64),
    HeadingTwice(u64),
    HeadingMissing(u64),
    FirstHeading(u64),
    CellCount(u64),
    Malformed(u64),
    OverLimit(u64),
    SheddableAboveLoad(u64),
    FirstTime(u64),
    NoRow,
    RunEnded,
    RunRecord,
    StationRecord,
    RowBuffer,
}

// Why a call of many seconds worked no more of them. None of these is a refusal of document 01: whoever wants the number of a second
// that the rules refuse asks for that second alone.
#[derive(Clone, Copy)]
pub enum Ended {
    AllWorked,
    // the rows lent have no place for the next one
    NoRoom,
    // the rules refuse the next one
    BeforeRefused,
}
