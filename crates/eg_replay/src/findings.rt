// What the ticks of a replay come to.
ghost use Rattle.std.specs.Prelude.{◌≡◌, ◌+◌, ◌<◌, ◌^◌, [], Some, if◌then◌else◌};
ghost use Rattle.eg_record.specs.Detection.{is_trip};
ghost use Rattle.eg_record.specs.Margins.{greater_than};
ghost use Rattle.eg_replay.specs.Findings.{findings_of, surplus_at};
ghost use Rattle.eg_replay.specs.Inner.TickMore.{first_with, found_with, greater_counters, findings_with, surplus_with};

use crate::{Counters, TickSignals, Watches};
use eg_record::{greater_than, is_trip};

/// What the ticks of a replay come to (docs/CONCEPT.md, "`replay` and `signals`"). Ticks are told from 0.
#[derive(Clone, Copy)]
pub struct Findings {
    /// How many there are.
    pub ticks: u64,
    /// The tick at which the pair of the pedal is found to disagree, or None.
    pub pedal: Option<u64>,
    /// The same of the throttle plate.
    pub plate: Option<u64>,
    /// The same of the load.
    pub load: Option<u64>,
    /// The same of the speed.
    pub speed: Option<u64>,
    /// The tick at which the excess of torque is found, or None.
    pub torque: Option<u64>,
    /// The greatest that each debouncer weighed after a tick.
    pub greatest: Counters,
    /// The first tick at which a watch is found that trips: any but the pedal's. None where none is.
    pub trip: Option<u64>,
    /// The greatest number of ticks in a row with an excess, by level 2's signal.
    pub stretch: u64,
    /// The greatest difference of level 2's actual and permitted torque at a tick before the first trip or at
    /// it, in tenths of Nm; None where there is no tick.
    pub surplus: Option<i32>,
}

impl Findings {
    /// The findings of no ticks.
    pub(crate) fn none() -> Findings
        ensures { result ≡ findings_of [] }
    {
        Findings {
            ticks: 0,
            pedal: None,
            plate: None,
            load: None,
            speed: None,
            torque: None,
            greatest: Counters {
                pedal: 0,
                plate: 0,
                load: 0,
                speed: 0,
                torque: 0,
            },
            trip: None,
            stretch: 0,
            surplus: None,
        }
    }

    /// Adds what is told of the next tick, up to which so many ticks in a row have an excess. There are fewer
    /// than 2^64 - 1 ticks before it.
    #[inline(always)]
    pub(crate) fn add(&mut self, told: &TickSignals, lasting: u64)
        requires fewer { self.old.ticks + 1 < 2 ^ 64 }
        ensures { self.new ≡ findings_with told.now lasting self.old }
    {
        let tick = self.ticks;
        self.surplus = surplus_with(told, self.trip.is_some(), self.surplus);
        self.note_found(&told.found, tick);
        self.greatest = greater_counters(&told.counters, &self.greatest);
        self.stretch = lasting.max(self.stretch);
        self.ticks = tick + 1;
    }

    /// Notes what is found at a tick. At nearly every tick that is nothing.
    #[inline(always)]
    fn note_found(&mut self, found: &Watches, tick: u64)
        ensures { self.new ≡ found_with tick found.now self.old }
    {
        if !found.pedal && !is_trip(found) {
            return;
        }
        note_first(&mut self.pedal, found.pedal, tick);
        note_first(&mut self.plate, found.plate, tick);
        note_first(&mut self.load, found.load, tick);
        note_first(&mut self.speed, found.speed, tick);
        note_first(&mut self.torque, found.torque, tick);
        note_first(&mut self.trip, is_trip(found), tick);
    }
}

/// Notes a tick where it is such a one, and none is noted yet.
#[tactic(auto, unfolding(crate::specs::Inner::TickMore::first_with))]
fn note_first(first: &mut Option<u64>, is_such: bool, tick: u64)
    ensures { first.new ≡ first_with tick is_such first.old }
{
    if is_such && first.is_none() {
        *first = Some(tick);
    }
}

/// The greater of both, debouncer by debouncer.
#[tactic(auto, unfolding(crate::specs::Inner::TickMore::greater_counters))]
fn greater_counters(one: &Counters, other: &Counters) -> Counters
    ensures { result ≡ greater_counters one.now other.now }
{
    Counters {
        pedal: one.pedal.max(other.pedal),
        plate: one.plate.max(other.plate),
        load: one.load.max(other.load),
        speed: one.speed.max(other.speed),
        torque: one.torque.max(other.torque),
    }
}

/// The greatest surplus with this tick, in tenths of Nm: it counts unless a watch tripped before it.
#[tactic(auto, unfolding(crate::specs::Inner::TickMore::surplus_with))]
fn surplus_with(told: &TickSignals, tripped: bool, surplus: Option<i32>) -> Option<i32>
    ensures { result ≡ surplus_with told.now tripped surplus }
{
    if tripped {
        surplus
    } else {
        Some(greater_than(surplus_at(told), surplus))
    }
}

/// How far the actual torque of level 2 lies above the permitted one at a tick, in tenths of Nm.
#[tactic(auto, unfolding(crate::specs::Findings::surplus_at))]
fn surplus_at(told: &TickSignals) -> i32
    ensures { result ≡ surplus_at told.now }
{
    i32::from(told.signals[2]) - i32::from(told.signals[1])
}
