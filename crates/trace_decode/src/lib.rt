//! Plays of a hart that is hit by faults, and the trace that tells them.
#![tactic(auto)]

mod desk;
mod laws;
mod lines;
mod play;
mod tracing;

pub use laws::{
    plays_are_runs, plays_are_unique, plays_become_legal, plays_end, plays_keep_bounds,
};
pub use tracing::{TooMany, TraceEnd, budget, run_trace};
