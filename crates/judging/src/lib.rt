#![tactic(auto)]
// The first part of every program that reads a station file and a sample file: both are read in chunks and judged, station first. A
// machine by value from events to actions, which a program's own machine holds; it reads and writes nothing itself.
pub mod judge;
mod reading;
pub mod state;
