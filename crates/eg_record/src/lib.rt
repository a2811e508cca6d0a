//! The record of a run: rows, one a tick, with what holds at that tick; the watches; the facts of the rows,
//! which a tally gathers row by row; and the summary of a run, which is what a report says of it. Rows and
//! summaries are also given as the lines that are printed.
#![tactic(auto)]

mod detection;
mod facts;
mod margins;
mod numbers;
mod reactions;
mod row;
mod row_line;
mod run_facts;
mod span_tally;
mod summary;
mod summary_line;
mod tally;
mod watch;

pub use detection::{detections_are_first, is_trip, off_ticks_are_first, on_ticks_are_last};
pub use eg_answer::{AnswerMark, Verdict};
pub use eg_num::{Drive, Watches};
pub use facts::Facts;
pub use margins::{Counters, MarginTally, Margins, greater_than};
pub use numbers::{NUMBER_ROOM, put_numbers};
pub use reactions::Reactions;
pub use row::Row;
pub use row_line::{
    FOUND_ROOM, ROW_ROOM, push_row, put_found, put_row_line, record_header, row_text,
};
pub use run_facts::RunFacts;
pub use summary::{Summary, summarize};
pub use summary_line::{report_end_text, summary_text, trap_name};
pub use tally::Tally;
pub use watch::Watch;
