#![tactic(auto)]
// The check of a sample file, in chunks of any length.
pub mod check;
