// What two files and the seconds asked come to: "station first", then the samples; the seconds asked "after the files".
ghost use Rattle.std.specs.Prelude.{[]};
ghost use Rattle.rules.specs.Answers.{result_of, value_or};
ghost use Rattle.rules.specs.Run.{seconds_asked};
ghost use Rattle.rules.specs.RunRecord.{start};
ghost use Rattle.rules.specs.StationRecord.{no_station};
ghost use Rattle.records.specs.NoRun.{no_run};
ghost use Rattle.station.specs.Stations.{station_with};
ghost use Rattle.course.specs.Begin.{Before, BegunAs};

use crate::state::Course;
use arguments::seconds::seconds_asked;
use input_source::source::inputs;
use records::start::start;
use rules::answers::Refusal;
use rules::station::Station;
use samples::check::Span;
use station::chunks::{StationBytes, station_of};
use station::reader::no_station;

// Before second 0, with so many seconds to work.
fn at_start(station: Station, seconds: u32) -> Course
    ensures { Before station (value_or no_run (start station)) seconds result }
{
    Course {
        station,
        run: start(station).run,
        source: inputs(),
        left: seconds,
    }
}

// The course of a run that was refused, the same whichever refused it: nobody works seconds of a station that was not asked for.
pub fn no_course() -> Course
    ensures { Before no_station no_run 0 result }
{
    at_start(no_station(), 0)
}

// The course, once both files have come to their end. Where the station is refused, nothing is asked of the samples.
pub fn course_of(
    file: StationBytes,
    checked: Result<Span, Refusal>,
    asked: &[u8],
) -> Result<Course, Refusal>
    ensures { BegunAs (station_with file []) (result_of checked) (seconds_asked asked.now) result }
{
    let station = station_of(file)?;
    checked?;
    let seconds = seconds_asked(asked)?;
    Ok(at_start(station, seconds as u32))
}
