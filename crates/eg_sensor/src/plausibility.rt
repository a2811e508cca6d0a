// What readings stand for, and whether the tracks of a pair agree.
ghost use Rattle.std.specs.Prelude.{◌≡◌};
ghost use Rattle.eg_sensor.specs.Readings.{falling_value, disagrees, used_pedal, checked_raise, bit, pair_bits};

use crate::{LOAD_PAIR, PEDAL_PAIR, PLATE_PAIR, Readings, SPEED_PAIR};

/// The value of a falling track: 1000 less its reading, not below 0 (docs/CONCEPT.md, "Sensors").
pub fn falling(reading: u16) -> u16
    ensures { result ≡ falling_value reading }
{
    1000u16.saturating_sub(reading)
}

/// Whether two values of a pair differ by more than the tolerance (docs/CONCEPT.md, "Sensors").
pub fn disagree(first: u16, second: u16, tolerance: u16) -> bool
    ensures { result ≡ disagrees (record { first = first; second = second }) tolerance }
{
    first.abs_diff(second) > tolerance
}

/// The raise that counts, in tenths of Nm: 0 where it and its check word don't add up to 65535
/// (docs/CONCEPT.md, "Sensors").
pub fn checked_raise(value: u16, check: u16) -> u16
    ensures { result ≡ checked_raise value check }
{
    if check == u16::MAX - value { value } else { 0 }
}

/// The pedal that level 2 uses, in per mille, by the readings of the pedal's two tracks: the lower of their
/// two values, and 0 in limited operation (docs/CONCEPT.md, "Sensors").
pub fn used(pedal: [u16; 2], limp: bool) -> u16
    ensures { result ≡ used_pedal pedal limp }
{
    if limp {
        0
    } else {
        pedal[0].min(falling(pedal[1]))
    }
}

/// The bits of the pairs that disagree, added up: 1 for the pedal, 2 for the plate, 4 for the load, 8 for the
/// speed. The tolerances stand in this order (docs/CONCEPT.md, "Sensors").
pub fn pair_bits(r: &Readings, tolerances: &[u16; 4]) -> u16
    ensures { result ≡ pair_bits r.now tolerances.now }
{
    let pedal = disagree(r.pedal[0], falling(r.pedal[1]), tolerances[0]);
    let plate = disagree(r.plate[0], falling(r.plate[1]), tolerances[1]);
    let load = disagree(r.load[0], r.load[1], tolerances[2]);
    let speed = disagree(r.speed[0], r.speed[1], tolerances[3]);
    bit(PEDAL_PAIR, pedal) + bit(PLATE_PAIR, plate) + bit(LOAD_PAIR, load) + bit(SPEED_PAIR, speed)
}

/// The bit of this size where a test is true, else 0.
fn bit(size: u16, is_set: bool) -> u16
    ensures { result ≡ bit size is_set }
{
    if is_set { size } else { 0 }
}
