//! Calibration files: a file is read as a calibration, or refused by the first rule that it breaks.
#![tactic(auto)]

mod document;
mod entries;
mod key;
mod laws;
mod question;
mod reader;
mod unanswered;

pub use eg_values::{Calibration, reference};
pub use key::{CalFault, CalKey};
pub use laws::{accepted_files_keep_the_rules, reference_is_its_file, right_answers_are_accepted};
pub use reader::{read_answers, read_calibration};
