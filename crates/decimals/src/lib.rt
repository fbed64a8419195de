#![tactic(auto)]
// Numbers into a buffer that the caller lends, from a place on.
mod decimal;
pub mod numbers;
