#![tactic(auto)]
// A row as numbers, and the lines that a run prints, each written into the buffer that the caller lends.
pub mod row;
pub mod row_numbers;
pub mod run_lines;
