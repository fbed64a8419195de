#![tactic(auto)]
// A usual row of the sample file, read in one pass over its bytes.
pub mod usual;
