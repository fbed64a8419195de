#![tactic(auto)]
// What each second of a run is handed, of a sample file that comes in chunks of any length.
pub mod fill;
mod usual_seconds;
