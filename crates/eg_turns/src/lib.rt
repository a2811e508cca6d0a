//! What level 1 and level 2 do at a tick, over one guarded memory: slices of level 1, which nobody trusts,
//! and the modules of level 2, in turn.
//!
//! The board stores what both are given, and each slice and each module makes of the memory what its own
//! crate says. So a tick makes of level 2's words exactly what its eight modules make of them, and of level
//! 1's private world what its nine slices make of it (`specs/Working.antt`). What a run is isn't known here.
#![tactic(auto)]

mod board;
mod levels;
mod reading;
mod working;

pub use board::show;
pub use reading::{Outputs, signals, word};
pub use working::{Task, restart, set_up, work};
