//! Questions of the monitoring module, and answers of level 2: test rows and their results, the fold that an
//! answer carries, the token that the modules of level 2 move, the questions, and the times of the answers
//! with the worst-case reaction, the bounds for lapses and the distance of missed runs that never cut.
#![tactic(auto)]

mod answers;
mod formulas;
mod marks;
mod modules;
mod questions;
mod rules;
mod times;
mod token;
mod words;

pub use answers::{expected, fold, folds_tell_results_apart, mix, results};
pub use formulas::{
    EXCESS_BIT, disagreeing_pairs, estimated_torque, excess_number, gating_permits_no_more,
    permitted_torque,
};
pub use marks::{AnswerMark, Verdict};
pub use modules::{ACTUAL, CHECK, DEBOUNCE, EXCESS, MODULES, PAIRS, PEDAL, PERMITTED, REACT};
pub use questions::{Question, Questions};
pub use rules::{Rules, TestRow};
pub use times::{Times, feeds_to_confirm, lapse_bound, longest_missed, miss_spacing, reaction};
pub use token::{next_token, token_counts_modules};
pub use words::{MIRRORED_WORDS, STORED_WORDS, words_in_numbers};
