//! The commands that play whole runs: `run`, `table`, `margins`, `record` and `sweep`.
//!
//! The runs are played tick by tick, and the report, the record or the rows are written: a record while its
//! ticks are made, the others after the last tick.
#![tactic(auto)]

mod least_limits;
mod report;
mod rows;
mod sweep_table;
mod texts;

pub use least_limits::margins_tell_limits;
pub use report::{put_record, put_told};
pub use sweep_table::put_table;
