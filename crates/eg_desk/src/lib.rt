//! What the words of the command line ask for, and the commands that play no run.
//!
//! `check` finds the first confirmed excess in a file's rows; `bound` and `limits` tell what a calibration
//! comes to, `coverage` what finds each class of fault, and `answers` the right answers to its questions;
//! `asm` and `dis` lead from a source to its image and back: what each of them reads, and what it writes of
//! that. What a source is, and how words are written, stands in `eg_asm`.
#![tactic(auto)]

mod answering;
mod assembling;
mod checking;
mod command;
mod command_line;
mod coverage;
mod disassembling;
mod excess;
mod forms;
mod limit;
mod means;
mod monitoring;
mod number;
mod telling;
mod work;

pub use answering::{put_answers, questions_of};
pub use assembling::{put_image, source_words};
pub use checking::{check_rows, put_check};
pub use command::Command;
pub use command_line::command_words;
pub use coverage::{CoverageCase, CoverageRow, CoverageTicks, Off, put_coverage};
pub use disassembling::{image_of, put_source};
pub use limit::{Limits, limits_of};
pub use means::numbers_mean;
pub use telling::{put_bound, put_limits};
pub use work::Work;
