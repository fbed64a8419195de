#![tactic(auto)]
// The eleven steps of a second, whatever is handed in.
pub mod step;
