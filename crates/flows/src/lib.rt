#![tactic(auto)]
// Steps 2 to 7: what a second's load is met from, and what is shed of it.
pub mod amounts;
mod arithmetic;
mod battery;
pub mod floor;
mod flow;
pub mod meet;
