#![tactic(auto)]
// The program `run` between two actions: its stages, what each asks for, what holds at each, and that it may stop at any. What leads from
// one stage to the next is for the crates above.
pub mod state;
