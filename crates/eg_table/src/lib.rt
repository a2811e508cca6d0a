//! The tables of `table`, `margins` and `sweep`, from what is told of runs: the header and the line of each
//! run, with whether its fault has acted; and for `sweep` the faults of a grid, one of each class at each of
//! its onsets, and what comes of the runs under them, class by class.
//!
//! Nothing is played here: the caller plays the runs, and hands in what is told of each.
#![tactic(auto)]

mod acting;
mod grid;
mod laws;
mod line;
mod margins;
mod sweep_lines;
mod sweep_row;
mod sweep_table;

pub use acting::has_acted;
pub use grid::{SweepFault, is_too_large, sweep_faults};
pub use laws::{
    acting_is_doing_something, keys_stand_in_one_column, swept_faults_are_listed,
    tables_are_bounded,
};
pub use line::{push_table_line, table_header};
pub use margins::{margins_header, push_margins_line};
pub use sweep_lines::sweep_text;
pub use sweep_row::SweepRow;
pub use sweep_table::tabulate;
