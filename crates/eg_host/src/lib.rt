//! Level 1 in slices, and how many instructions it may do in each.
//!
//! Before each module of level 2, and after the last, level 1 runs for a slice: its machine does a limited
//! number of steps over the guarded memory. Whatever the image is, a slice changes no word but level 1's own,
//! and it is a slice of level 1's private world (`specs/Slices.antt`), on which the model of a run is built.
//! The reader of campaign files makes the slice plan of a run (`SlicePlan`), and the unit follows it.
#![tactic(auto)]

mod host;
mod level1;
mod slices;

pub use host::Host;
pub use level1::Level1;
pub use slices::{SlicePlan, Slices};
