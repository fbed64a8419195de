// The run that two files and the seconds asked come to.
ghost use Rattle.std.specs.Prelude.{[]};
ghost use Rattle.rules.specs.Answers.{result_of};
ghost use Rattle.rules.specs.Run.{seconds_asked};
ghost use Rattle.station.specs.Stations.{station_with};
ghost use Rattle.run_phases.specs.Begin.{BegunAs};

use crate::state::{Phase, Simulation};
use course::begin::{course_of, no_course};
use rules::answers::Refusal;
use samples::check::Span;
use station::chunks::StationBytes;

// The run, once both files have come to their end: before its heading, or with a refusal that is all that is printed.
pub fn begin(file: StationBytes, checked: Result<Span, Refusal>, asked: &[u8]) -> Simulation
    ensures { BegunAs (station_with file []) (result_of checked) (seconds_asked asked.now) result }
{
    match course_of(file, checked, asked) {
        Ok(course) => Simulation {
            phase: Phase::Heading,
            course,
        },
        Err(refusal) => Simulation {
            phase: Phase::Refusal(refusal),
            course: no_course(),
        },
    }
}
