// What a calibration comes to.
ghost use Rattle.std.specs.Prelude.{◌<◌, ◌↔◌, IsTrue, SomeIff, IfSome};
ghost use Rattle.eg_answer.specs.Times.{lapse_bound_of};
ghost use Rattle.eg_values.specs.Excess.{BoundsLapses, BoundsMissed, longest_missed};
ghost use Rattle.eg_desk.specs.Limits.{AreLimits};

use crate::excess::{greatest_excess, longest_stretch, ramp_ticks};
use eg_answer::{feeds_to_confirm, lapse_bound, longest_missed, miss_spacing, reaction};
use eg_module::test_ticks;
use eg_torque::NO_RAMP;
use eg_values::Calibration;

/// What a calibration comes to (docs/FORMATS.md, "The text of `limits`").
#[derive(Clone, Copy)]
pub struct Limits {
    /// The worst-case reaction, in ticks.
    pub reaction: u32,
    /// The bound for lapses, in ticks, if there is one; with a ramp there is none.
    pub lapse: Option<u32>,
    /// How many wrong verdicts in a row open path 2, from an empty counter.
    pub verdicts: u32,
    /// How many ticks of excess in a row confirm it, where level 2 runs at each, from an empty counter.
    pub excess: u32,
    /// The tick of its span at which a start-up test reads the shut-off paths back.
    pub test: u32,
    /// Missed runs of level 2 that lie so many ticks apart never make wrong answers cut before a watch trips,
    /// if there is such a number.
    pub spacing: Option<u32>,
    /// How many ticks in a row an excess lasts at the most, without a fault or under a listed one.
    pub stretch: u32,
    /// How far the torque of an engine on the bench lies above what is permitted and the threshold together
    /// at the most, in tenths of Nm; 0 where no excess is possible.
    pub peak: u16,
    /// How many ticks the ramp takes from the permit table's greatest number to its least, rounded up: 0
    /// without a ramp, and None where the ramp never comes down.
    pub ramp: Option<u32>,
    /// How many ticks in a row an excess lasts at the most where level 2 misses ticks, whichever they are, if
    /// a number is proved for the calibration.
    pub missed: Option<u32>,
}

/// What a calibration comes to (docs/CONCEPT.md, "Worst-case reaction", "Lapses" and "Why the unit reacts").
#[tactic(auto, unfolding(eg_answer::specs::Times::feeds_to_confirm))]
pub fn limits_of(calibration: &Calibration) -> Limits
    ensures { AreLimits calibration.now result }
{
    let torque = &calibration.rules().torque;
    let times = calibration.times();
    Limits {
        reaction: reaction(times),
        lapse: lapse_of(calibration),
        verdicts: feeds_to_confirm(times.weights()),
        excess: feeds_to_confirm(torque),
        test: test_ticks(times),
        spacing: miss_spacing(times),
        stretch: longest_stretch(calibration),
        peak: greatest_excess(calibration),
        ramp: ramp_ticks(calibration.rules()),
        missed: missed_of(calibration),
    }
}

/// The bound for lapses in ticks, if the calibration has one (docs/CONCEPT.md, "Lapses").
fn lapse_of(calibration: &Calibration) -> Option<u32>
    ensures { let cal = calibration.now in
        SomeIff result (BoundsLapses cal) (lapse_bound_of cal.rules.torque cal.times) }
{
    let rules = calibration.rules();
    if rules.fall != NO_RAMP {
        return None;
    }
    lapse_bound(&rules.torque, calibration.times())
}

/// How many ticks in a row an excess lasts at the most under lapses, if a number is proved for the
/// calibration (docs/CONCEPT.md, "Lapses").
pub(crate) fn missed_of(calibration: &Calibration) -> Option<u32>
    ensures longest { SomeIff result (BoundsMissed calibration.now) (longest_missed calibration.now) }
    ensures within { IfSome result (λ ticks. ticks < 200000000) }
{
    if bounds_missed(calibration) {
        Some(longest_missed(&calibration.rules().torque, calibration.times()))
    } else {
        None
    }
}

/// Whether the calibration bounds how long an excess lasts under lapses: without a ramp, with one that never
/// comes down, or where one wrong verdict confirms.
fn bounds_missed(calibration: &Calibration) -> bool
    ensures { IsTrue result ↔ BoundsMissed calibration.now }
{
    let fall = calibration.rules().fall;
    let verdicts = feeds_to_confirm(calibration.times().weights());
    fall == NO_RAMP || fall == 0 || verdicts == 1
}
