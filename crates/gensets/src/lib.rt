#![tactic(auto)]
// What the sets of a mask give together and each, and what a set burns.
pub mod fuel;
pub mod line;
pub mod share;
