#![tactic(auto)]
// Which seconds are admitted: the refusals of a second in their order, and how many seconds of a call.
pub mod admit;
pub mod inputs;
