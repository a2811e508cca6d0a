//! The files that the simulator reads: drive traces and check files, which are files of rows, and images; and
//! what was recorded of a vehicle or a test bench, and what a partner answers: a line of text for each tick.
#![tactic(auto)]

mod answered;
mod columns;
mod cursor;
mod decimal;
mod fault;
mod field;
mod image;
mod line;
mod number;
mod plain;
mod reader;
mod recorded;
mod row;
mod trace;

pub use answered::{MOST_ANSWER_BYTES, PartnerAnswer, answer_of, long_lines_answer_nothing};
pub use columns::{Columns, columns_of};
pub use decimal::decimal_in;
pub use fault::{ImageFault, TraceFault};
pub use image::{MOST_WORDS, images_are_their_lines, read_image};
pub use recorded::{MOST_BYTES, Recorded, long_lines_write_nothing, recorded_of};
pub use trace::{check_files_are_their_rows, read_check, read_trace, traces_are_their_rows};
