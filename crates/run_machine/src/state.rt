// The machine and what it asks for, passed on: a loop names the crate of its machine alone.
pub use run_stages::state::{Machine, asked};
