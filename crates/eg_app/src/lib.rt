//! The program's top call: words in, bytes out. All files that a command needs are read and accepted first;
//! what is to be done then is a job, which reads no file.
#![tactic(auto)]

mod call;
mod gather;
mod job;
mod perform;
mod soak;

pub use call::{egasim, egasim_on_lines};
pub use eg_outcome::{Outcome, Refusal, Role};
