// How near a run came to a cut.
ghost use Rattle.std.specs.Prelude.{◌≡◌, List, [], ◌∷◌, not, false, Some, if◌then◌else◌};
ghost use Rattle.eg_record.specs.Detection.{is_trip};
ghost use Rattle.eg_record.specs.Margins.{IsMarginTallyOf, Weighed, greater_than, margins_of, no_margins, surplus_at};
ghost use Rattle.eg_record.specs.Inner.RowMore.{greater_counters};

use crate::Row;
use crate::detection::is_trip;

/// What the debouncers of six watches weigh after a tick (docs/CONCEPT.md, "Debouncing"): each at most its
/// limit. Those of level 2 are 0 again once a word was found to differ from its complement.
#[derive(Clone, Copy)]
pub struct Counters {
    /// That of the pedal's pair.
    pub pedal: u16,
    /// That of the throttle plate's pair.
    pub plate: u16,
    /// That of the load's pair.
    pub load: u16,
    /// That of the speed's pair.
    pub speed: u16,
    /// That of the torque.
    pub torque: u16,
    /// That of the answers.
    pub answers: u16,
}

/// How near a run came to a cut (docs/CONCEPT.md, "`margins`").
#[derive(Clone, Copy)]
pub struct Margins {
    /// The greatest that each debouncer weighed in a drive span.
    pub greatest: Counters,
    /// The greatest difference of level 2's actual and permitted torque, in tenths of Nm, at a tick of a
    /// drive span up to the first at which a watch trips in it, that tick included; None where there is no
    /// such tick.
    pub surplus: Option<i32>,
}

impl Margins {
    /// What is told of a run of which nothing is weighed.
    pub(crate) fn none() -> Margins
        ensures { result ≡ no_margins }
    {
        Margins {
            greatest: Counters {
                pedal: 0,
                plate: 0,
                load: 0,
                speed: 0,
                torque: 0,
                answers: 0,
            },
            surplus: None,
        }
    }
}

/// A tally is fed the rows of a run one by one, from tick 0 on, each with what the debouncers weigh after its
/// tick, and has in place of them how near they came to a cut (docs/CONCEPT.md, "`margins`"). No call takes
/// memory.
#[derive(Clone, Copy)]
pub struct MarginTally {
    margins: Margins,
    drives: bool,
    tripped: bool,
}

impl MarginTally {
    /// A tally that was fed nothing.
    pub fn new() -> MarginTally
        // It stands for no rows.
        ensures { IsMarginTallyOf result [] }
    {
        MarginTally {
            margins: Margins::none(),
            drives: false,
            tripped: false,
        }
    }

    /// Feeds the row of the next tick, and what the debouncers weigh after it.
    pub fn feed(&mut self, row: &Row, counters: &Counters)
        // It stands for the rows that it stood for, whichever they are, and this one.
        ensures { (weighed : List Weighed) → IsMarginTallyOf self.old weighed →
            IsMarginTallyOf self.new (record { row = row.now; counters = counters.now } ∷ weighed) }
    {
        let tripped = tripped_before(row, self.tripped);
        let drives = drives_at(row, self.drives);
        let margins = &mut self.margins;
        margins.greatest = greatest_with(&margins.greatest, counters, drives);
        margins.surplus = surplus_with(margins.surplus, row, drives & !tripped);
        self.drives = drives;
        self.tripped = tripped | is_trip(&row.found);
    }

    /// How near the rows that it was fed came to a cut.
    pub fn margins(&self) -> Margins
        ensures { (weighed : List Weighed) → IsMarginTallyOf self.now weighed →
            result ≡ margins_of weighed }
    {
        self.margins
    }
}

/// Whether a row trips before this one in its span, where one did before it in the span of the row before.
fn tripped_before(row: &Row, tripped: bool) -> bool
    ensures { result ≡ if row.now.fresh then false else tripped }
{
    if row.fresh { false } else { tripped }
}

/// Whether a row is one of a drive span, where the row before it is one or isn't.
fn drives_at(row: &Row, drives: bool) -> bool
    ensures { result ≡ if row.now.fresh then not row.now.testing else drives }
{
    if row.fresh { !row.testing } else { drives }
}

/// The greatest weights, where those of one row more count or don't.
fn greatest_with(greatest: &Counters, counters: &Counters, counts: bool) -> Counters
    ensures { result ≡ if counts then greater_counters counters.now greatest.now else greatest.now }
{
    if counts {
        greater_counters(counters, greatest)
    } else {
        *greatest
    }
}

/// The greater of both, debouncer by debouncer.
#[tactic(auto, unfolding(crate::specs::Inner::RowMore::greater_counters))]
fn greater_counters(one: &Counters, other: &Counters) -> Counters
    ensures { result ≡ greater_counters one.now other.now }
{
    Counters {
        pedal: one.pedal.max(other.pedal),
        plate: one.plate.max(other.plate),
        load: one.load.max(other.load),
        speed: one.speed.max(other.speed),
        torque: one.torque.max(other.torque),
        answers: one.answers.max(other.answers),
    }
}

/// The greatest surplus, in tenths of Nm, where that of one row more counts or doesn't.
fn surplus_with(surplus: Option<i32>, row: &Row, counts: bool) -> Option<i32>
    ensures { result
        ≡ if counts then Some (greater_than (surplus_at row.now) surplus) else surplus }
{
    if counts {
        Some(greater_than(surplus_at(row), surplus))
    } else {
        surplus
    }
}

/// How far the actual torque of level 2 lies above the permitted one at a row, in tenths of Nm.
#[tactic(auto, unfolding(crate::specs::Margins::surplus_at))]
fn surplus_at(row: &Row) -> i32
    ensures { result ≡ surplus_at row.now }
{
    i32::from(row.signals[2]) - i32::from(row.signals[1])
}

/// The greater of a number and of another, if there is another.
#[tactic(auto, unfolding(crate::specs::Margins::greater_than))]
pub fn greater_than(number: i32, other: Option<i32>) -> i32
    ensures { result ≡ greater_than number other }
{
    match other {
        Some(other) if number < other => other,
        _ => number,
    }
}
