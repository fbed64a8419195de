#![tactic(auto)]
// The numbers of a station file, each with its place, its width, its range and the words for it: one table for the reader, for the checks
// and for what a clerk is told. No function stands here.
pub mod battery;
pub mod control;
pub mod field;
pub mod genset;
pub mod layout;
pub mod ranges;
