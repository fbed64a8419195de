#![tactic(auto)]
// What a clerk is told of a refused line of the sample file: the line, its heading or cell, what is wrong with it, and what would be right.
// No call answers anything, and no rule stands here.
pub mod columns;
pub mod line_faults;
pub mod line_rules;
pub mod part_faults;
