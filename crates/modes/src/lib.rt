#![tactic(auto)]
// The sets' modes.
pub mod masks;
pub mod mode;
pub mod tick;
