//! The arithmetic that the parts of the unit share: tables with values between their points, debouncing by
//! weights, the rows of a drive trace, and the watches that are found.
#![tactic(auto)]

mod arithmetic;
mod axis;
mod counter;
mod curve;
mod drive;
mod pedal_word;
mod table;
mod watches;
mod weights;

pub use arithmetic::{lerp_floor, total, toward};
pub use axis::Axis;
pub use counter::{Counter, counters_count_windows, windows_are_places};
pub use curve::Table1;
pub use drive::Drive;
pub use table::Table2;
pub use watches::Watches;
pub use weights::Weights;
