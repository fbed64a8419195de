#![tactic(auto)]
// The rows of a sample file that comes in chunks of any length.
pub mod reader;
