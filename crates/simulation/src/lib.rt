#![tactic(auto)]
// The plain run's text: the course of a run between the bytes that are read and the bytes to be written, its rows and other lines in a
// lent buffer.
pub mod advance;
mod line_turn;
mod seconds_turn;
mod turn;
