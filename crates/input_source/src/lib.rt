#![tactic(auto)]
// What a run is handed its inputs from.
pub mod source;
