//! Redundant sensors: readings, what they stand for, and whether the tracks of a pair agree.
#![tactic(auto)]

mod brake;
mod pairs;
mod plausibility;
mod readings;
mod tracks;

pub use brake::{contacts, gate, pressed};
pub use pairs::{LOAD_PAIR, PEDAL_PAIR, PLATE_PAIR, SPEED_PAIR};
pub use plausibility::{checked_raise, disagree, falling, pair_bits, used};
pub use readings::{Readings, sound};
pub use tracks::{
    BRAKE_1, BRAKE_2, LOAD_1, LOAD_2, PAIRED_TRACKS, PEDAL_1, PEDAL_2, PLATE_1, PLATE_2, SPEED_1,
    SPEED_2, TRACKS,
};
