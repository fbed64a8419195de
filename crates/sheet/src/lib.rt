#![tactic(auto)]
// A row of the sample file: the numbers of its cells, and the row.
pub mod numbers;
pub mod rows;
