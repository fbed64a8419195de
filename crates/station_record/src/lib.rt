#![tactic(auto)]
// A station's record: which values it may have, and whether some file gives it.
pub mod record;
pub mod values;
