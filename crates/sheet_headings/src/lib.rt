#![tactic(auto)]
// A line of the sample file: its parts, and the heading line.
pub mod cells;
pub mod headings;
