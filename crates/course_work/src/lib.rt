#![tactic(auto)]
// Seconds of a run's course: bytes of samples go in, and rows come out as numbers.
pub mod work;
