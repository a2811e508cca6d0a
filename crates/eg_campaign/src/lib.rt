//! Campaigns that are played: the runs of a campaign group by group, with what the report says of each, the
//! facts of each, what `table` tells of each, or how near each came to a cut; one input under many faults;
//! and the record of a run, written as its ticks are made. Runs of one group share the part before their
//! faults.
#![tactic(auto)]

mod alike;
mod checkpoints;
mod counting;
mod groups;
mod key;
mod kinds;
mod leading;
mod play;
mod recording;
mod under;
mod wanted;

pub use kinds::{facts_under, record_into};
pub use play::{facts_all, run_all, told_all};
pub use recording::RecordStop;
