#![tactic(auto)]
// Bytes, masks and answers in code; nothing of the field.
pub mod little;
pub mod masks;
pub mod refusals;
