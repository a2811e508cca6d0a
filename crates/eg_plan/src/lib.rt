//! Campaign files: a file is read as the plans of its runs, or refused by the first rule that it breaks.
//!
//! A plan is what a campaign says of a run. The files that it names are read, and the run is played, in the
//! crates above: nothing here uses `eg_tick`. What those files hold stands beside the plan in a `RunInput`.
//! Runs with equal drives own one copy: `Drives` finds it by a number of the rows, and `SharedItems` is what
//! they own.
#![tactic(auto)]

mod contents;
mod drive_number;
mod drives;
mod engine;
mod fault;
mod key;
mod laws;
mod reader;
mod run;
mod run_input;
mod shared_items;
mod slices;
mod texts;
mod ticks;

pub use drive_number::{mixed, number_of_drive};
pub use drives::Drives;
pub use eg_plant::EngineKind;
pub use key::{CampaignFault, RunKey};
pub use laws::accepted_files_keep_the_rules;
pub use reader::read_campaign;
pub use run::RunPlan;
pub use run_input::RunInput;
pub use shared_items::SharedItems;
pub use slices::usual_slices;
pub use ticks::add_ticks;
