#![tactic(auto)]
// What the programs say on standard error of the files that they are named: where one cannot be opened or read, why there is no answer,
// and how far a long reading has come.
pub mod progress;
pub mod source;
pub mod why;
