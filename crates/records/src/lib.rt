#![tactic(auto)]
// The run's record: how a run starts, and which records are possible.
mod decided;
pub mod possible;
pub mod start;
mod states;
mod totals;
