//! The runs that `soak` draws from a number: each an image of level 1, a drive, and a fault or none.
#![tactic(auto)]

mod examples;
mod faults;
mod generator;
mod images;
mod laws;
mod runs;
mod traces;

pub use examples::{faults_of_each_class, images_of_each_kind, the_first_run};
pub use generator::Generator;
pub use laws::each_run_is_proper;
pub use runs::DrawnRun;
