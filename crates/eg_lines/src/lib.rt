//! Lines that come one by one from outside.
//!
//! Contracts see a source of `Lines` through what it shows: the lines still to come, where they are told; how
//! many faults it has met; and whether it is sure, so that reading never fails. The program runs over
//! `LateLines`, which shows the lines of a reader that tells its bytes: one over the system tells none. Tests
//! and theorems also run over the two sources that stand in memory.
#![tactic(auto)]

mod late_lines;
mod lines;
mod memory_lines;
mod read_lines;
mod sure_lines;
mod text_lines;

pub use late_lines::LateLines;
pub use lines::Lines;
pub use memory_lines::MemoryLines;
pub use read_lines::ReadLines;
pub use sure_lines::SureLines;
