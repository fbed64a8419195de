#![tactic(auto)]
// The second pass of the program `run`: chunks of the sample file in, rows out, until all is handed over; and its tally held against that of
// the first.
mod hand_over;
pub mod second_pass;
pub mod writing;
