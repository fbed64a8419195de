#![tactic(auto)]
// The program `run` up to its second pass: how it was called, both files judged, and the seconds asked, which come to a refusal's line or to
// a run that begins.
pub mod calling;
pub mod seconds;
