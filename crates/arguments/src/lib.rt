#![tactic(auto)]
// The arguments that a program is given.
pub mod seconds;
