// The paper's number and place of a refusal, for those who print it or hand it to C.
ghost use Rattle.std.specs.Prelude.{◌≡◌};

use rules::answers::Refusal;

#[derive(Clone, Copy, Debug, PartialEq, Eq)]
pub struct NumberAndPlace {
    pub number: u64,
    pub place: u64,
}

impl From<Refusal> for NumberAndPlace {
    ghost use Rattle.rules.specs.Answers.{number_and_place};

    ghost from_gives = { λ refusal told. (told.number ≡ (number_and_place refusal).0) × (told.place ≡ (number_and_place refusal).1) };

    fn from(refusal: Refusal) -> NumberAndPlace {
        let (number, place) = match refusal {
            Refusal::StationSize => (1, 0),
            Refusal::ContentsEntry(entry) => (2, entry as u64),
            Refusal::ContentsSize => (3, 0),
            Refusal::ControlValue => (4, 0),
            Refusal::BatteryValue => (5, 0),
            Refusal::SetNumber(set) => (6, set as u64),
            Refusal::SetPairs(set) => (7, set as u64),
            Refusal::ConfigurationMask(configuration) => (8, configuration as u64),
            Refusal::LineLength(line) => (11, line),
            Refusal::HeadingBlank(line) => (12, line),
            Refusal::HeadingUnknown(line) => (13, line),
            Refusal::HeadingTwice(line) => (14, line),
            Refusal::HeadingMissing(line) => (15, line),
            Refusal::FirstHeading(line) => (16, line),
            Refusal::CellCount(line) => (17, line),
            Refusal::Malformed(line) => (18, line),
            Refusal::OverLimit(line) => (19, line),
            Refusal::SheddableAboveLoad(line) => (20, line),
            Refusal::FirstTime(line) => (21, line),
            Refusal::NoRow => (22, 0),
            Refusal::RunEnded => (23, 0),
            Refusal::RunRecord => (24, 0),
            Refusal::StationRecord => (25, 0),
            Refusal::RowBuffer => (26, 0),
        };
        NumberAndPlace { number, place }
    }
}
