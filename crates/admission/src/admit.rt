// What is asked of each second, and how many of those that are asked the rules admit one after the other.
ghost use Rattle.std.specs.Prelude.{◌≡◌, ◌*◌, ◌≤◌, length};
ghost use Rattle.rules.specs.Answers.{result_of};
ghost use Rattle.rules.specs.Second.{inputs_right, admitted};
ghost use Rattle.rules.specs.Seconds.{inputs_each, came_to};
ghost use Rattle.admission.specs.Admission.{admitted_to, admitted_of, ended_at, JudgedBy};

use crate::inputs::first_inputs;
use records::possible::possible;
use rules::answers::{Ended, Refusal};
use rules::limits::{LEAST_ROW_BUFFER, MOST_POWER, MOST_SECONDS, SECOND_INPUTS};
use rules::run::{Inputs, Run};
use rules::station::Station;
use station_record::record::some_file_gives;

// No power over its limit.
fn inputs_right(inputs: Inputs) -> bool
    ensures { result ≡ inputs_right inputs }
{
    (inputs.load <= MOST_POWER) & (inputs.solar <= MOST_POWER) & (inputs.sheddable <= MOST_POWER)
}

// What is asked of each second of a station and a record that were judged.
pub fn admit(done: u32, inputs: Inputs, room: usize) -> Result<(), Refusal>
    ensures { result_of result ≡ admitted done inputs room }
{
    if MOST_SECONDS <= done {
        return Err(Refusal::RunEnded);
    }
    if !inputs_right(inputs) {
        return Err(Refusal::OverLimit(0));
    }
    if inputs.load < inputs.sheddable {
        return Err(Refusal::SheddableAboveLoad(0));
    }
    if room < LEAST_ROW_BUFFER {
        return Err(Refusal::RowBuffer);
    }
    Ok(())
}

// How many seconds are admitted one after the other, of the first `most`, where so many are done before.
fn admitted_to(done: u32, inputs: &[u32], most: usize) -> usize
    requires { 3 * most ≤ length inputs.now }
    ensures { result ≡ admitted_to done (inputs_each inputs.now) most }
{
    let mut second = done;
    for count in 0..most {
        let x = first_inputs(&inputs[SECOND_INPUTS * count..]);
        if admit(second, x, LEAST_ROW_BUFFER).is_err() {
            return count;
        }
        second += 1;
    }
    most
}

// Why so many seconds were worked and no more, where so many were asked and so many have room.
fn ended_at(count: usize, asked: usize, room: usize) -> Ended
    ensures { result ≡ ended_at count asked room }
{
    if count == asked {
        return Ended::AllWorked;
    }
    if count == room {
        return Ended::NoRoom;
    }
    Ended::BeforeRefused
}

// Of a station or a record that is refused, none.
fn admitted_of(st: Station, run: Run, inputs: &[u32], most: usize) -> usize
    requires { 3 * most ≤ length inputs.now }
    ensures { result ≡ admitted_of st run (inputs_each inputs.now) most }
{
    if !some_file_gives(st) {
        return 0;
    }
    if !possible(st, run) {
        return 0;
    }
    admitted_to(run.done, inputs, most)
}

// How many seconds a call is to work, and why no more.
#[derive(Clone, Copy)]
pub struct Judged {
    pub seconds: usize,
    pub ended: Ended,
}

// Station and record are judged once, since a second leaves a possible record.
pub fn judge_seconds(st: Station, run: Run, inputs: &[u32], room: usize) -> Judged
    ensures { JudgedBy (came_to st run (inputs_each inputs.now) room) result }
{
    let asked = inputs.len() / SECOND_INPUTS;
    let count = admitted_of(st, run, inputs, asked.min(room));
    Judged {
        seconds: count,
        ended: ended_at(count, asked, room),
    }
}
