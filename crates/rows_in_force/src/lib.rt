#![tactic(auto)]
// The row in force at a second, of a sample file in chunks.
pub mod in_force;
