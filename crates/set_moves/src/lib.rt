#![tactic(auto)]
// What a second does to each set: its counts and its command, as their types hold them.
pub mod commands;
pub mod counts;
