#![tactic(auto)]
// The program `run` by decisions: a machine by value from each event to the next action, by the stage at which it stands. It reads and
// writes nothing itself.
pub mod next;
pub mod state;
