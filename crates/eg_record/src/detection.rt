// What is first in the rows of a run.
ghost use Rattle.std.specs.Prelude.{◌≡◌, ◌<◌, ◌+◌, reverse, if◌then◌else◌};
ghost use Rattle.eg_record.specs.Rows.{AreRows};
ghost use Rattle.eg_record.specs.Detection.{cutting, first_detection, is_trip, DetectionLaw};
ghost use Rattle.eg_record.specs.Stages.{is_off, first_off, OffLaw, LastOnLaw};
ghost use Rattle.eg_record.specs.Excess.{above, true_excess, first_confirmed};

use crate::{Row, Watch};
use eg_num::{Counter, Watches, Weights};
use eg_torque::excess;

/// The first detection in these rows, which stand in the order of time.
pub(crate) fn first_detection(rows: &[Row]) -> Option<(Watch, u32)>
    ensures { result ≡ first_detection (reverse rows.now) }
{
    for row in rows {
        if let Some(watch) = Watch::first_among(&row.found) {
            return Some((watch, row.tick));
        }
    }
    None
}

/// The first tick of these rows at which the stages are off and no start-up test is running.
pub(crate) fn first_off(rows: &[Row]) -> Option<u32>
    ensures { result ≡ first_off (reverse rows.now) }
{
    for row in rows {
        if is_off(row) {
            return Some(row.tick);
        }
    }
    None
}

/// The first tick of these rows at which the true excess is confirmed within its span.
pub(crate) fn first_confirmed(rows: &[Row], threshold: u16, weights: &Weights) -> Option<u32>
    requires { AreRows (reverse rows.now) }
    ensures { result ≡ first_confirmed weights.now threshold (reverse rows.now) }
{
    // A limit is at least 1: without a row nothing is confirmed.
    let limit = weights.limit();
    prove!(limit >= 1);
    let mut counter = Counter::new();
    for row in rows {
        counter = counter_at(row, counter);
        if counter.feed(weights, is_excess(row, threshold)) {
            return Some(row.tick);
        }
    }
    None
}

/// Does nothing when it runs. Its contract is the law of what a report tells first (docs/CONCEPT.md, "The
/// report of a run"): the order of watches decides between two that find at one tick.
///
/// Claim 15 (C57, C59, C80): `first` of a report names the least tick at which any watch finds something,
/// and the first in the order of watches that does so at this tick. `reaction`, `stretch` and `peak` of
/// `table` are the least numbers of which their meaning (docs/CONCEPT.md, "`table`") holds.
pub fn detections_are_first()
    ensures { DetectionLaw }
{}

/// Does nothing when it runs. Its contract is a law: at the tick that is told as the first at which the
/// stages are off they are off and no start-up test is running, and at each earlier one they are on or a test
/// is running (docs/CONCEPT.md, "The report of a run").
pub fn off_ticks_are_first()
    ensures { OffLaw }
{}

/// Does nothing when it runs. Its contract is a law: at the tick that is told as the last at which the stages
/// are on they are on, and at each later one they are off (docs/CONCEPT.md, "The report of a run").
pub fn on_ticks_are_last()
    ensures { LastOnLaw }
{}

/// Whether the stages are off at a row, and no start-up test is running.
#[tactic(auto, unfolding(crate::specs::Stages::is_off))]
pub(crate) fn is_off(row: &Row) -> bool
    ensures { result ≡ is_off row.now }
{
    !row.on && !row.testing
}

/// Whether the torque of a row is more than what is permitted and the threshold together, in tenths of Nm.
#[tactic(auto, unfolding(crate::specs::Excess::true_excess))]
pub(crate) fn is_excess(row: &Row, threshold: u16) -> bool
    ensures { result ≡ true_excess threshold row.now }
{
    excess(row.torque, row.limit, threshold)
}

/// The counter that a row is fed to: a new one where a span begins with the row.
pub(crate) fn counter_at(row: &Row, counter: Counter) -> Counter
    ensures { result.value ≡ if row.now.fresh then 0 else counter.value }
{
    if row.fresh { Counter::new() } else { counter }
}

/// How many rows in a row have a true excess up to this one, where it has one or not, and `lasts` of them had
/// one up to the row before it. None does where a span begins with this row.
pub(crate) fn lasts_at(row: &Row, is_excess: bool, lasts: u32) -> u32
    requires { lasts < 20000 }
    ensures { result ≡ if is_excess then (if row.now.fresh then 0 else lasts) + 1 else 0 }
{
    if !is_excess {
        return 0;
    }
    let before = if row.fresh { 0 } else { lasts };
    before + 1
}

/// How far the torque of a row lies above what is permitted and the threshold together, in tenths of Nm.
#[tactic(auto, unfolding(crate::specs::Excess::above))]
pub(crate) fn above(row: &Row, threshold: u16) -> u16
    ensures { result ≡ above threshold row.now }
{
    row.torque
        .saturating_sub(row.limit)
        .saturating_sub(threshold)
}

/// Whether one of these watches trips.
#[tactic(auto, unfolding(crate::specs::Detection::is_trip))]
pub fn is_trip(found: &Watches) -> bool
    ensures { result ≡ is_trip found.now }
{
    found.mirror || found.plate || found.load || found.speed || found.torque
}

/// Of these watches those that cut.
#[tactic(auto, unfolding(crate::specs::Detection::cutting))]
pub(crate) fn cutting(found: &Watches) -> Watches
    ensures { result ≡ cutting found.now }
{
    Watches {
        pedal: false,
        start: false,
        ..*found
    }
}
