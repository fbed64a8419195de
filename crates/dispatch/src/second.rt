// One second, with a lent buffer: "A second: 25, 24, 23, 19, 20, 26."
ghost use Rattle.std.specs.Prelude.{◌≡◌};
ghost use Rattle.rules.specs.Answers.{result_of, judged};
ghost use Rattle.rules.specs.Second.{second, Second};

use admission::admit::admit;
use commitment::configuration::capacities;
use moments::parts::{moment_of, whole};
use records::possible::possible;
use rows::row::put_row;
use rules::answers::Refusal;
use rules::run::{Handed, Inputs, Run};
use rules::station::Station;
use station_record::record::some_file_gives;
use steps::step::step;

// The refusals of a second, in their order.
fn judge(st: Station, run: Run, inputs: Inputs, room: usize) -> Result<(), Refusal>
    ensures { result_of result ≡ judged (second st run inputs room) }
{
    if !some_file_gives(st) {
        return Err(Refusal::StationRecord);
    }
    if !possible(st, run) {
        return Err(Refusal::RunRecord);
    }
    admit(run.done, inputs, room)
}

// One second. A refused one hands the record back and leaves the buffer as they were.
pub fn second(st: Station, run: Run, inputs: Inputs, row: &mut [u8]) -> Handed
    ensures { Second st run inputs row.old result row.new }
{
    if let Err(refusal) = judge(st, run, inputs, row.len()) {
        return Handed {
            answer: Err(refusal),
            run,
        };
    }
    let caps = capacities(st.sets, st.configs);
    let mut decided = run.decided;
    let stepped = step(st, &caps, run.sets, moment_of(run), inputs, &mut decided);
    Handed {
        answer: put_row(stepped.row, row),
        run: whole(stepped.moment, stepped.states, decided),
    }
}
