// What the tracks of the sensors read.
ghost use Rattle.std.specs.Prelude.{◌≡◌, ◌≤◌};
ghost use Rattle.eg_sensor.specs.Readings.{sound_readings};

/// What the sensors read at one tick (docs/CONCEPT.md, "Sensors"): two tracks of pedal, plate, load and speed
/// each, and the raise of the permitted torque (tenths of Nm) with its check word. The second tracks of pedal
/// and plate fall.
#[derive(Clone, Copy)]
pub struct Readings {
    /// The tracks of the pedal, in per mille.
    pub pedal: [u16; 2],
    /// The tracks of the throttle plate, in per mille.
    pub plate: [u16; 2],
    /// The tracks of the load, in per mille.
    pub load: [u16; 2],
    /// The tracks of the speed, in rpm.
    pub speed: [u16; 2],
    /// What raises the permitted torque, in tenths of Nm.
    pub raise: u16,
    /// The check word of the raise: where nothing disturbs it, the two add up to 65535.
    pub raise_check: u16,
}

impl Readings {
    /// Equal readings. It takes no memory.
    pub fn copy(&self) -> Readings
        ensures { result ≡ self.now }
    {
        *self
    }
}

/// What sound tracks read at this pedal, plate and speed, where the engine shows these two loads and this
/// raise is sent (docs/CONCEPT.md, "Sensors"). Units are those of the fields.
pub fn sound(pedal: u16, plate: u16, loads: [u16; 2], speed: u16, raise: u16) -> Readings
    requires pedal { pedal ≤ 1000 }
    requires plate { plate ≤ 1000 }
    ensures { result ≡ sound_readings pedal plate loads speed raise }
{
    Readings {
        pedal: [pedal, 1000 - pedal],
        plate: [plate, 1000 - plate],
        load: loads,
        speed: [speed, speed],
        raise,
        raise_check: u16::MAX - raise,
    }
}
