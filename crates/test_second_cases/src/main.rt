#![tactic(auto)]
// Cases of one second on standard input, and their answers on standard output: what the comparison with the reference program runs.
// Both are numbers of 8 bytes, little-endian, in the order of the reference's kind `seconds`; the comparison makes them of its lines.
mod answer;
mod case;
mod cases;
mod held;
mod record_case;
mod station_case;

use crate::cases::answer_all;

fn main(rt: HostRuntime) {
    let mut bytes = [0u8; 2808];
    let mut lent = [0u8; 4096];
    answer_all(&rt, &mut bytes, &mut lent);
}
