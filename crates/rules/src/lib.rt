#![tactic(auto)]
// The declared types of document 01. Their meaning stands in specs/, directly over them; this crate has no function.
pub mod answers;
pub mod limits;
pub mod run;
pub mod samples;
pub mod station;
