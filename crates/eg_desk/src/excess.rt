// How long an excess can last by a calibration, how great it can be, and how long the ramp is.
ghost use Rattle.std.specs.Prelude.{◌≡◌, max, min};
ghost use Rattle.std.specs.List.{fold};
ghost use Rattle.eg_values.specs.Excess.{greatest_excess, greatest_permitted, greatest_torque, least_permitted, longest_stretch, ramp_ticks};

use eg_answer::{Rules, feeds_to_confirm, reaction};
use eg_num::Table2;
use eg_plant::PlantData;
use eg_torque::NO_RAMP;
use eg_values::Calibration;

/// How many ticks in a row an excess lasts at the most, without a fault or under a listed one.
pub(crate) fn longest_stretch(calibration: &Calibration) -> u32
    ensures { result ≡ longest_stretch calibration.now }
{
    let times = calibration.times();
    // Called for its clause alone: few verdicts confirm, so that the sum is small.
    let _verdicts = feeds_to_confirm(times.weights());
    feeds_to_confirm(&calibration.rules().torque) - 1 + reaction(times)
}

/// How far the torque of an engine lies above what is permitted and the threshold together at the most, in
/// tenths of Nm.
#[tactic(auto, unfolding(eg_values::specs::Excess::greatest_excess))]
pub(crate) fn greatest_excess(calibration: &Calibration) -> u16
    ensures { result ≡ greatest_excess calibration.now }
{
    let rules = calibration.rules();
    greatest_torque(calibration.plant())
        .saturating_sub(least_permitted(rules.permit.table()))
        .saturating_sub(rules.threshold)
}

/// The most torque that an engine with these data gives, in tenths of Nm.
#[tactic(auto, unfolding(eg_values::specs::Excess::greatest_torque))]
fn greatest_torque(plant: &PlantData) -> u16
    ensures { result ≡ greatest_torque plant.now }
{
    let charge = greatest(plant.charge().values());
    (u32::from(charge) * u32::from(plant.kt()) / 1000) as u16
}

/// The least torque that a permit table permits, in tenths of Nm.
#[tactic(auto, unfolding(eg_values::specs::Excess::least_permitted))]
fn least_permitted(permit: &Table2) -> u16
    ensures { result ≡ least_permitted permit.now }
{
    let values = permit.values();
    least(&values[..permit.width()], values[0])
}

/// How many ticks the ramp takes from the table's greatest number to its least, rounded up: 0 without a ramp,
/// and None where the ramp never comes down.
#[tactic(auto, unfolding(eg_values::specs::Excess::ramp_ticks))]
pub(crate) fn ramp_ticks(rules: &Rules) -> Option<u32>
    ensures { result ≡ ramp_ticks rules.now }
{
    if rules.fall == NO_RAMP {
        return Some(0);
    }
    if rules.fall == 0 {
        return None;
    }
    let permit = rules.permit.table();
    let height = greatest_permitted(permit).saturating_sub(least_permitted(permit));
    Some(u32::from(height.div_ceil(rules.fall)))
}

/// The most torque that a permit table permits, in tenths of Nm.
#[tactic(auto, unfolding(eg_values::specs::Excess::greatest_permitted))]
fn greatest_permitted(permit: &Table2) -> u16
    ensures { result ≡ greatest_permitted permit.now }
{
    greatest(permit.values())
}

/// The greatest of these numbers, or 0 where there is none.
fn greatest(numbers: &[u16]) -> u16
    ensures { result ≡ fold max 0 numbers.now }
{
    numbers
        .iter()
        .fold(0, |greatest: u16, number| greatest.max(*number))
}

/// The least of these numbers and this one.
fn least(numbers: &[u16], first: u16) -> u16
    ensures { result ≡ fold min first numbers.now }
{
    numbers
        .iter()
        .fold(first, |least: u16, number| least.min(*number))
}
