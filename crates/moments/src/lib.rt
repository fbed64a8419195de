#![tactic(auto)]
// The small part of a run's record, without its arrays: what a second makes of it, and the row.
pub mod parts;
mod totals;
