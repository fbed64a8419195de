#![tactic(auto)]
// What a clerk is told of a refusal beside its title: what stands at its place, what is wrong there, and what would be right. Both go by the
// refusal's cases and have no other arm, so that a further refusal is explained by nothing until that is written here.
pub mod faults;
pub mod rights;
