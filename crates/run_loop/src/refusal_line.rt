// A refusal in plain words, in a line; `check` tells more.
use plain_words::texts::say;
use refusal_words::places::{Place, place_of, say_place};
use refusal_words::refused::say_refused;
use refusal_words::titles::say_title;
use rules::answers::Refusal;
use std::io::Write;

// `check` is handed both files, and no seconds.
fn say_more<W: Write>(err: &mut W, place: Place) {
    match place {
        Place::StationFile
        | Place::Entry(_)
        | Place::Set(_)
        | Place::Configuration(_)
        | Place::SampleFile
        | Place::Line(_) => say(
            err,
            b"run: bin/check STATION SAMPLES says what stands there and what would be right.\n",
        ),
        Place::Seconds | Place::Call => {}
    }
}

pub(crate) fn say_refusal<W: Write>(err: &mut W, refusal: Refusal) {
    let place = place_of(refusal);
    say(err, b"run: ");
    say_refused(err, refusal, place);
    say_place(err, place);
    say(err, b": ");
    say_title(err, refusal);
    say(err, b".\n");
    say_more(err, place);
}
