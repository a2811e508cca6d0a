//! The values of a calibration, and the reference calibration. The readers of calibration files stand in
//! crates above.
#![tactic(auto)]

mod calibration;
mod standard;

pub use calibration::{Apart, Calibration};
pub use standard::reference;
