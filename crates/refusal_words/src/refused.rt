// That a file, an argument or a call is refused, with the paper's number.
use crate::places::{Place, subject_of};
use rules::answers::Refusal;
use std::io::Write;
use words::refusals::NumberAndPlace;

pub fn say_refused<W: Write>(err: &mut W, refusal: Refusal, place: Place) {
    let subject = subject_of(place);
    let number = NumberAndPlace::from(refusal).number;
    let _ = write!(err, "{subject} is refused with the number {number}");
}
