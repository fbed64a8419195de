#![tactic(auto)]
// The program `run` over buffers that are lent to it: its machine in the loop that performs what it asks for, and the words. No decision
// stands here: what is read, what is written and in which order is the machine's.
mod end_words;
mod machine;
pub mod program;
mod refusal_line;
