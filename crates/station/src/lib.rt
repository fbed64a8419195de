#![tactic(auto)]
// A station file: its bytes, at once or as they arrive, become a record, or the first refusal.
mod bodies;
pub mod chunks;
mod contents;
mod numbers;
pub mod reader;
