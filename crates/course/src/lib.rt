#![tactic(auto)]
// The course of a run, without a sink: the station, the record, the source of inputs and the seconds that are left; and how it begins.
// What works its seconds, and what is made of their rows, is for the crates above.
pub mod begin;
pub mod state;
