// The rules that level 2 uses, and the test rows that try them.
ghost use Rattle.std.specs.Prelude.{◌≡◌};

use eg_num::Weights;
use eg_sensor::Readings;
use eg_torque::Permit;

/// The rules that level 2 uses (docs/CONCEPT.md, "Questions and answers").
#[derive(Drop)]
pub struct Rules {
    /// The permit table.
    pub permit: Permit,
    /// By how much the permitted torque may fall in a tick, in tenths of Nm, or `NO_RAMP` (docs/CONCEPT.md,
    /// "Torque").
    pub fall: u16,
    /// The torque of a load of 1000, in tenths of Nm.
    pub kt: u16,
    /// How much an estimate may exceed the permitted torque, in tenths of Nm.
    pub threshold: u16,
    /// By how much the two values of a pair may differ: of pedal, plate and load in per mille, and of the
    /// speed in rpm.
    pub tolerances: [u16; 4],
    /// The weights of the debouncers of the pairs.
    pub pair: Weights,
    /// The weights of the debouncer of the torque.
    pub torque: Weights,
}

impl Rules {
    /// Equal rules. It takes no memory.
    pub fn copy(&self) -> Rules
        ensures { result ≡ self.now }
    {
        Rules {
            permit: self.permit.copy(),
            fall: self.fall,
            kt: self.kt,
            threshold: self.threshold,
            tolerances: self.tolerances,
            pair: self.pair.copy(),
            torque: self.torque.copy(),
        }
    }
}

/// A test row (docs/CONCEPT.md, "Questions and answers"): numbers for which the right results are known.
/// Level 2 computes on them, once when it is made, what it computes on the sensors' readings at each tick.
#[derive(Clone, Copy)]
pub struct TestRow {
    /// What the fold begins with.
    pub seed: u16,
    /// What stands in place of the sensors' readings.
    pub readings: Readings,
    /// The pedal for the permitted torque, in per mille.
    pub used: u16,
    /// The estimate for the excess, in tenths of Nm.
    pub estimate: u16,
    /// The permitted torque for the excess, in tenths of Nm.
    pub allowed: u16,
}

impl TestRow {
    /// An equal row. It takes no memory.
    pub fn copy(&self) -> TestRow
        ensures { result ≡ self.now }
    {
        *self
    }
}
