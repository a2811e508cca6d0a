//! The laws of records: that the stages go off in time and not without need, what the watches find, and
//! that level 1 acts by its two outputs. And further laws of runs: that R is the least worst-case
//! reaction, which bound for lapses is the least, how long an excess lasts and how often it may come
//! again, which numbers `table` tells, whether each shut-off path conducts, what is so under several
//! faults at once, under which lapses wrong answers never cut before a trip, and how long a ramp lasts.
//! Nothing here runs: specs/ has the definitions, and the functions carry the laws as their contracts. The
//! unit doesn't stand on this crate.
#![tactic(auto)]

mod availability;
mod bursts;
mod closer_misses;
mod coverage;
mod findings;
mod in_words;
mod latent;
mod least_lapse;
mod least_missed;
mod least_reaction;
mod limits;
mod missed_stretch;
mod missed_ticks;
mod never_cuts;
mod outputs;
mod pairs_found;
mod paths;
mod ramps;
mod records;
mod seeing;
mod sharp_under;
mod stretches;
mod weight_limits;

pub use availability::{far_misses_never_cut, records_stay_available};
pub use bursts::{
    bursts_are_sparse, bursts_last, densest_feeds, records_are_sparse, records_end_bursts,
};
pub use closer_misses::closer_misses_cut;
pub use coverage::{
    closed_paths_are_found, moved_answers_are_cut, spoiled_answers_open_path_2,
    wrong_answers_are_found_exactly, wrong_answers_run,
};
pub use findings::{records_find_in_time, records_find_sharply, records_name_what_cuts};
pub use in_words::told_numbers_are_least;
pub use latent::{
    faults_stay_hidden, faults_stay_hidden_at_rest, moves_in_the_window_stay_hidden,
    small_offsets_stay_hidden, small_scripts_stay_hidden,
};
pub use least_lapse::{lapse_bound_is_least, longest_excess_run};
pub use least_missed::missed_bound_is_least;
pub use least_reaction::{latest_cut_run, reaction_is_least};
pub use limits::records_keep_limits;
pub use missed_stretch::missed_excess_ends;
pub use missed_ticks::records_cut_misses;
pub use never_cuts::permitted_throttles_never_cut;
pub use outputs::level_1_acts_by_its_outputs;
pub use pairs_found::records_find_pairs;
pub use paths::records_tell_paths;
pub use ramps::records_leave_ramps;
pub use records::{
    records_are_histories, records_cut_from_onset, records_cut_sharply,
    records_cut_standing_excess, records_react, records_test_the_paths, spans_react_in_time,
};
pub use seeing::{premises_are_needed, seen_excess_is_cut};
pub use sharp_under::records_cut_sharply_under;
pub use stretches::{excess_ends, longest_stretch_run, records_end_excess};
pub use weight_limits::records_disregard_limits;
