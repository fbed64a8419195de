#![tactic(auto)]
// `check STATION SAMPLES` as decisions: whether both files are in order for a run. A machine by value from events to actions; it
// reads and writes nothing itself.
mod answer;
pub mod line_search;
mod lines;
pub mod next;
mod opening;
pub mod state;
