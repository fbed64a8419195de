#![tactic(auto)]
// Rows of numbers as text.
pub mod put_rows;
