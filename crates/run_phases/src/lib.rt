#![tactic(auto)]
// What a run hands over next: its phases, what it wants, and how it begins. What its calls make of them is for the crate above.
pub mod begin;
pub mod phases;
pub mod state;
