#![tactic(auto)]
// A refusal in a line of plain words, for every program: what the fault is, of which file or argument it is, and what its place counts.
// Each goes by the refusal's cases and has no other arm, so that a further refusal has no words until they are written here.
pub mod places;
pub mod refused;
pub mod titles;
