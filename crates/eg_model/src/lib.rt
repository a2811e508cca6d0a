//! What a run of the simulated unit is, tick by tick, and those laws of runs that the unit states of its own
//! ticks. Nothing here runs: specs/ has the definitions, and the functions carry laws of histories as their
//! contracts. What holds of every record is in `eg_laws`, and runs that are worked out are in `eg_runs`.
#![tactic(auto)]

mod branching;
mod lapses;
mod reaction;
mod sharp_cut;
mod spans;
mod start_up;

pub use branching::runs_branch;
pub use lapses::standing_excess_is_cut;
pub use reaction::{cuts_from_onset, reacts_in_time};
pub use sharp_cut::cuts_sharply;
pub use spans::spans_are_histories;
pub use start_up::{runs_without_reset_are_one_span, tests_pass};
