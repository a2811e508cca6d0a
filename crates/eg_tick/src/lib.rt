//! The unit as it runs, `Controller`: one tick of all three levels.
//!
//! A tick is made of slices of level 1, which nobody trusts, between the modules of level 2, over one
//! guarded memory (`eg_turns`); of the monitoring module, two latches and the engine. This crate has what a
//! tick is cut into, what counts the ticks that were made, how a controller and how a span of ticks begins,
//! and what the monitoring module makes of a tick. What a controller stands for is in `specs/Stands.antt`.
#![tactic(auto)]

mod bench;
mod benched_engine;
mod commands;
mod controller;
mod monitoring;
mod paths;
mod plant;
mod row;
mod run;
mod span;
mod weighing;

pub use bench::{bench_begin, bench_controller, bench_restart, bench_row, bench_tick};
pub use benched_engine::BenchedEngine;
pub use commands::{Commands, rows_command_alike};
pub use controller::{Controller, Ticks};
pub use eg_host::{SlicePlan, Slices};
pub use run::{RunRecord, run_one};
pub use weighing::weigh;
