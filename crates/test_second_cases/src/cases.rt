// A case of 351 numbers after another, until the input ends; a part of a case at its end has no answer.
use crate::answer::answer_case;
use crate::case::Case;
use std::io::Read;

fn write_numbers(rt: &HostRuntime, answer: &[u64; 142]) {
    let mut bytes = [0u8; 1136];
    for i in 0..142 {
        bytes[8 * i..8 * i + 8].copy_from_slice(&answer[i].to_le_bytes());
    }
    let _ = rt.write_all(&bytes);
}

// The answer's numbers, and then all of the lent buffer, of which the comparison sees whether a byte beside the row has changed.
fn answer_one(rt: &HostRuntime, bytes: &[u8; 2808], lent: &mut [u8]) {
    let mut answer = [0u64; 142];
    answer_case(&Case::of(bytes), lent, &mut answer);
    write_numbers(rt, &answer);
    let _ = rt.write_all(lent);
}

pub(crate) fn answer_all(rt: &HostRuntime, bytes: &mut [u8; 2808], lent: &mut [u8]) {
    for _ in 0..u64::MAX {
        if rt.stdin().read_exact(bytes).is_err() {
            return;
        }
        answer_one(rt, bytes, lent);
    }
}
