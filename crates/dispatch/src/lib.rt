#![tactic(auto)]
// One second of a run with its refusals, and many seconds on one judgement.
pub mod second;
pub mod seconds;
