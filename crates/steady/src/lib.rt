#![tactic(auto)]
// Many seconds, the steady ones between two events together: what follows from the modes alone is worked once until a set changes its
// mode. A pass over `dispatch::seconds`, with the same rows.
mod curve_table;
mod next_event;
pub mod seconds;
mod steady_counts;
mod steady_seconds;
mod steady_step;
mod steady_walk;
mod stretch;
