// The ten tracks of the sensors, by their numbers (docs/CONCEPT.md, "Sensors").

/// The first track of the pedal, which rises.
pub const PEDAL_1: u8 = 0;

/// The second track of the pedal, which falls.
pub const PEDAL_2: u8 = 1;

/// The first track of the throttle plate, which rises.
pub const PLATE_1: u8 = 2;

/// The second track of the throttle plate, which falls.
pub const PLATE_2: u8 = 3;

/// The first track of the load.
pub const LOAD_1: u8 = 4;

/// The second track of the load.
pub const LOAD_2: u8 = 5;

/// The first track of the speed.
pub const SPEED_1: u8 = 6;

/// The second track of the speed.
pub const SPEED_2: u8 = 7;

/// How many tracks come in pairs that are compared: those below this number, which leaves out the brake's.
pub const PAIRED_TRACKS: u8 = 8;

/// The first contact of the brake, which reads 1 where it is pressed, else 0.
pub const BRAKE_1: u8 = 8;

/// The second contact of the brake, which reads 0 where it is pressed, else 1.
pub const BRAKE_2: u8 = 9;

/// How many tracks there are.
pub const TRACKS: u8 = 10;
