// The four pairs of tracks, by the bits that stand for them where they disagree (docs/CONCEPT.md, "Sensors").

/// The bit that is set where the pair of the pedal disagrees.
pub const PEDAL_PAIR: u16 = 1;

/// The bit that is set where the pair of the throttle plate disagrees.
pub const PLATE_PAIR: u16 = 2;

/// The bit that is set where the pair of the load disagrees.
pub const LOAD_PAIR: u16 = 4;

/// The bit that is set where the pair of the speed disagrees.
pub const SPEED_PAIR: u16 = 8;
