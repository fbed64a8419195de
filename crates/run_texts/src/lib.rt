#![tactic(auto)]
// What a run still prints, by its phase, and which inputs are still to come. No function; the definitions and laws are for the crates above.
