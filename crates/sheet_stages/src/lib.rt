#![tactic(auto)]
// One line of the sample file after another: what the lines so far came to.
pub mod stage;
