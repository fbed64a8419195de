#![tactic(auto)]
// What standard error is told, in plain words: texts, numbers, the system's reasons, and bytes of a file that may not be printable.
pub mod heedless;
pub mod numbers;
pub mod reasons;
pub mod shown;
pub mod texts;
