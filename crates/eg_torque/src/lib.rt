//! What the monitoring of torque needs: the permitted torque of a permit table, the torque estimate of a
//! load, and the excess of the estimate over the permitted torque.
#![tactic(auto)]

mod permit;
mod ramp;
mod torque;

pub use permit::{Permit, permits_rise};
pub use ramp::{NO_RAMP, ramped};
pub use torque::{actual, excess};
