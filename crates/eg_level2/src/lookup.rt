// What was looked up already before a module runs.
ghost use Rattle.std.specs.Prelude.{◌≡◌, ◌↔◌, IsTrue};
ghost use Rattle.eg_level2.specs.Inputs.{IsLookup};

use crate::RowResults;
use eg_answer::Rules;

/// The permit table's value at a pedal and a speed, looked up already (docs/CONCEPT.md, "Torque"). Mostly
/// level 2 reads the pedal and the speed of the drive row, for which the unit has looked the value up.
#[derive(Clone, Copy)]
pub struct Lookup {
    /// The pedal, in per mille.
    pub pedal: u16,
    /// The speed, in rpm.
    pub speed: u16,
    /// The torque, in tenths of Nm.
    pub torque: u16,
}

/// What a module needn't look up when it runs. It is the same for all modules of a tick (`Level2::prepared`).
#[derive(Clone, Copy)]
pub struct Prepared {
    /// What the permit table says at one pedal and one speed.
    pub lookup: Lookup,
    /// The seed and the results of the test row of the question that is asked.
    pub row: RowResults,
}

impl Lookup {
    /// Looks the permit table up at a pedal (per mille) and a speed (rpm).
    pub fn new(rules: &Rules, pedal: u16, speed: u16) -> Lookup
        ensures lookup { IsLookup rules.now result }
        ensures pedal { result.pedal ≡ pedal }
        ensures speed { result.speed ≡ speed }
    {
        Lookup {
            pedal,
            speed,
            torque: rules.permit.table().at(pedal, speed),
        }
    }

    /// Whether it was looked up at this pedal and this speed.
    pub(crate) fn is_at(&self, pedal: u16, speed: u16) -> bool
        ensures { IsTrue result ↔ ((self.now.pedal ≡ pedal) × (self.now.speed ≡ speed)) }
    {
        self.pedal == pedal && self.speed == speed
    }
}
