// What a run is handed its inputs from: the row in force, and the rows after it, from the first byte of the sample file to its end.
ghost use Rattle.std.specs.Prelude.{◌≡◌, ℕ, List};
ghost use Rattle.rules.specs.SampleFile.{before_all};
ghost use Rattle.sheet_stages.specs.ToCome.{file_rows};
ghost use Rattle.input_source.specs.Source.{source_rows, source_ended, source_refused, ahead_at_end, EndedRight};

use rows_in_force::in_force::Ahead;
use rules::answers::Refusal;
use rules::samples::Sample;
use sample_rows::reader::{SampleReader, end, reader};
use sheet_stages::stage::line_refused;

// The row in force, and the rows after it.
#[derive(Clone, Copy)]
pub struct InputSource {
    pub reader: SampleReader,
    pub now: Sample,
    pub ahead: Ahead,
}

// From the file's first byte.
pub fn inputs() -> InputSource
    ensures by_index { (rest : List ℕ) → source_rows result rest ≡ file_rows rest }
    ensures result_value { (result.now ≡ before_all) × (result.ahead ≡ Ahead.Unread) }
{
    InputSource {
        reader: reader(),
        now: Sample {
            at: 0,
            load: 0,
            solar: 0,
            sheddable: 0,
        },
        ahead: Ahead::Unread,
    }
}

// Whether the file was refused and no row of it is left, so that it is not the one that was checked.
#[tactic(auto, unfolding(crate::specs::Source::source_refused))]
pub fn source_refused(source: InputSource) -> bool
    ensures { result ≡ source_refused source }
{
    match source.ahead {
        Ahead::Unread => line_refused(source.reader.stage),
        Ahead::Refused(_) => true,
        Ahead::Next(_) | Ahead::LastTwo(_, _) | Ahead::Last(_) | Ahead::Ended => false,
    }
}

// Whether the file has ended, so that no further byte changes what is to come.
pub fn has_ended(source: InputSource) -> bool
    ensures { result ≡ source_ended source }
{
    !matches!(source.ahead, Ahead::Unread | Ahead::Next(_))
}

// What is ahead at the end of the file, where the reader's last line gave this.
fn ahead_at_end(ahead: Ahead, ending: Result<Option<Sample>, Refusal>) -> Ahead
    ensures { result ≡ ahead_at_end ahead ending }
{
    match ahead {
        Ahead::Unread => match ending {
            Ok(Some(last)) => Ahead::Last(last),
            Ok(None) => Ahead::Ended,
            Err(refusal) => Ahead::Refused(refusal),
        },
        Ahead::Next(row) => match ending {
            Ok(Some(last)) => Ahead::LastTwo(row, last),
            Ok(None) => Ahead::Last(row),
            Err(refusal) => Ahead::Refused(refusal),
        },
        Ahead::LastTwo(_, _) | Ahead::Last(_) | Ahead::Ended | Ahead::Refused(_) => ahead,
    }
}

// The end of the file.
pub fn end_inputs(source: InputSource) -> InputSource
    ensures { EndedRight source result }
{
    let reader = source.reader;
    InputSource {
        reader,
        now: source.now,
        ahead: ahead_at_end(source.ahead, end(reader)),
    }
}
