//! Level 2, the function monitoring, as eight modules over the guarded memory.
//!
//! Level 2 is what the unit trusts. It compares the torque of the engine with the torque that the drive
//! permits, debounces what it finds, looks at its own program flow and answers questions. Its sixteen words
//! stand in a memory that it shares with level 1, which nobody trusts: each has its complement beside it, and
//! module 0 compares them. A module is a small function over the guarded memory, and its contract is one
//! formula a word (`specs/Modules.antt`).
#![tactic(auto)]

mod check;
mod debounce;
mod flow;
mod level2;
mod lookup;
mod phase;
mod ports;
mod react;
mod results;
mod signals;
mod step;
mod words;

pub use eg_num::Watches;
pub use flow::{
    answers_tell_gaps, flows_tell_gaps, folds_tell_disturbances, numbers_tell_both,
    tokens_tell_gaps, words_stay_steady,
};
pub use level2::{Level2, one_changed_word_is_found};
pub use lookup::{Lookup, Prepared};
pub use phase::Phase;
pub use results::RowResults;
pub use step::Step;
pub use words::word_address;
