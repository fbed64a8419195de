// The answer to a case: what the second answers and the record that it hands back, as numbers, and the row in the lent buffer.
use crate::case::Case;
use crate::record_case::{inputs_in, put_record, run_in};
use crate::station_case::station_in;
use dispatch::second::second;
use rules::answers::Refusal;
use words::refusals::NumberAndPlace;

// Where a case has the lent buffer's length.
const ROOM: usize = 350;

// A byte that no row has.
const LENT: u8 = 0xaa;

// 0 and the row's length, or 1, the refusal's number and its place.
fn put_outcome(answer: &mut [u64; 142], outcome: Result<usize, Refusal>) {
    match outcome {
        Ok(size) => {
            answer[1] = size as u64;
        }
        Err(refusal) => {
            let told = NumberAndPlace::from(refusal);
            answer[0] = 1;
            answer[1] = told.number;
            answer[2] = told.place;
        }
    }
}

// A buffer longer than the one that is lent counts as all of it.
pub(crate) fn answer_case(case: &Case, lent: &mut [u8], answer: &mut [u64; 142]) {
    lent.fill(LENT);
    let room = (case.narrow(ROOM) as usize).min(lent.len());
    let handed = second(
        station_in(case),
        run_in(case),
        inputs_in(case),
        &mut lent[..room],
    );
    put_outcome(answer, handed.answer);
    put_record(answer, handed.run);
}
