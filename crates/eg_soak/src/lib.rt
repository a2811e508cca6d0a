//! `soak`: runs that are drawn from a number are played, and counted.
//!
//! What is drawn stands in `eg_draw`. Each run is played by the reference calibration with the slices of a
//! run that names none, and the summary tells in how many runs each watch was the first that was found, and
//! how long the longest reaction took.
#![tactic(auto)]

mod facts;
mod playing;
mod run;
mod summary;
mod texts;

pub use playing::soak;
pub use run::run_facts;
pub use summary::SoakSummary;
pub use texts::soak_lines;
