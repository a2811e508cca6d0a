//! Runs of the simulated unit that are worked out, tick by tick, from the definitions of a run in `eg_model`.
//! Nothing here runs: each function carries what a run gives as its contract. The runs stand apart from
//! `eg_model` since they take long to compute, and `eg_model` is checked often.
#![tactic(auto)]

mod braking;
mod diesel;
mod examples;
mod facts;
mod faulty_runs;
mod hidden_runs;
mod lapses;
mod outputs;
mod power_cycles;
mod ramps;
mod short_faulty_runs;
mod short_runs;
mod throttles;
mod unusual_runs;

pub use braking::{braking_ticks, contacts_and_gates, held_throttle_run};
pub use diesel::{
    diesel_across_a_reset, diesel_at_full_throttle, diesel_that_loses_a_load_track,
    diesel_with_a_held_rack,
};
pub use examples::{
    empty_image, following_run, full_run_in_detail, idle_run, looping_image, refused_store,
    three_runs,
};
pub use facts::facts_tick_by_tick;
pub use faulty_runs::{
    disturbed_run, flipped_run, lost_load_run, moved_answers_run, path_1_closed_run,
    path_1_closes_run, raised_pedal_run, reaction_is_met, skipped_run,
};
pub use hidden_runs::{
    offset_that_is_cut_off, pair_that_is_seldom_apart, send_tick_that_is_moved,
    skips_in_short_spans,
};
pub use lapses::{
    a_dead_level_2_is_cut, a_miss_cuts_on_the_ramp, a_run_with_lapses_is_cut, missed_gap_is_cut,
    near_misses_cut_and_far_ones_do_not, standing_excess_run,
};
pub use outputs::{full_in_two_ways, outputs_act_a_tick_later};
pub use power_cycles::{
    excess_over_two_cycles, faults_go_on, flip_in_a_test, full_run_with_a_reset,
    resets_near_a_test, test_that_fails, test_that_is_begun_anew, test_that_is_cut,
    test_that_passes, tests_under_faults, two_traps,
};
pub use ramps::{longest_ramp, permitted_torque_comes_down, ramp_keeps_the_stages_on};
pub use short_faulty_runs::{
    disturbed_raise, failed_test, flip_seen_by_level_1, halted_and_held_runs, lapsed_run,
    latched_run, limited_run, offset_track, path_2_runs, wild_run,
};
pub use short_runs::{alternating_slices, full_run, passed_test, probing_run, raise_is_read};
pub use throttles::{greatest_throttle_of_a_diesel, greatest_throttle_that_never_cuts};
pub use unusual_runs::{
    early_answers_run, reading_that_is_cut_off_run, signal_that_stays_run, two_answers_run,
};
