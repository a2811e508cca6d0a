//! The monitoring module, which is level 3: it asks level 2 questions, hears the answers, gives a verdict at
//! the end of each period, and debounces the wrong ones.
#![tactic(auto)]

mod monitor;
mod testing;

pub use eg_answer::Verdict;
pub use monitor::Monitor;
pub use testing::test_ticks;
