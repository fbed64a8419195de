#![tactic(auto)]
// check STATION SAMPLES: checks a station file and then a sample file before a run. Standard output has the answer alone;
// standard error says to a clerk what stands in the files, or what is wrong and what would be right.
mod end_words;
mod program;

use crate::end_words::say_end;
use crate::program::Check;
use perform::turns::run;
use plain_words::heedless::Heedless;

fn main(rt: HostRuntime) {
    let mut paths = [0u8; 12288];
    let mut space = [0u8; 65536];
    let mut room = [0u8; 256];
    let err = &mut Heedless(rt.stderr());
    let ended = run::<Check, _, _>(&rt, err, &mut paths, &mut space, &mut room);
    say_end(err, ended, &paths);
}
