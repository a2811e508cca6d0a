// The facts of a run.
ghost use Rattle.std.specs.Prelude.{◌≡◌, ℕ, ◌<◌, List, [], IfOk, IsFalse, if◌then◌else◌, Some, None};
ghost use Rattle.std.specs.Prelude.{false, max, option_map};
ghost use Rattle.std.specs.Option.{option_or};
ghost use Rattle.eg_num.specs.Windows.{WeightParts};
ghost use Rattle.eg_record.specs.Detection.{cutting_at, detected_at, first_watch};
ghost use Rattle.eg_record.specs.Excess.{true_excess, above};
ghost use Rattle.eg_record.specs.Stages.{off_at};
ghost use Rattle.eg_record.specs.Facts.{facts_of, reaction_by, reaction_in, summary_with};
ghost use Rattle.eg_record.specs.Inner.RowMore.{facts_with};
ghost use Rattle.eg_record.specs.Summaries.{summary_of};

use crate::detection::{above, cutting, is_off};
use crate::{Row, Summary, Watch};
use eg_base::{NoMemory, Text};
use eg_num::Watches;
use eg_word::Trap;
use std::alloc::Global;

/// What is told of the rows of a run once they are gone (docs/CONCEPT.md, "The report of a run"). All ticks
/// are those of the run, the first being 0.
#[derive(Clone, Copy)]
pub struct Facts {
    /// The first watch that is found, and the tick at which it is, or None.
    pub first: Option<(Watch, u32)>,
    /// The first watch that cuts (any but the pedal's and a start-up test's) and is found, and its tick, or
    /// None.
    pub cut: Option<(Watch, u32)>,
    /// The first tick at which the power stages are off and no start-up test is running, or None.
    pub off: Option<u32>,
    /// The last tick at which the power stages are on, or None.
    pub last_on: Option<u32>,
    /// The first tick at which the true excess is confirmed within its span, or None.
    pub confirmed: Option<u32>,
    /// The greatest number of ticks in a row with a true excess in one span.
    pub stretch: u32,
    /// The most that the torque lies above what is permitted and the threshold together at a tick, in tenths
    /// of Nm; 0 where there is no true excess.
    pub peak: u16,
    /// How many rows there are, one a tick.
    pub ticks: u32,
}

impl Facts {
    /// What a report says of the run (docs/CONCEPT.md, "The report of a run"): its facts, with the name, the
    /// trap and the worst-case reaction (ticks) that are handed in. NoMemory is its one refusal.
    #[tactic(auto, unfolding(crate::specs::Facts::summary_with))]
    pub fn summary(
        &self,
        alloc: Global,
        name: &str,
        trap: Option<(Trap, u32)>,
        bound: u32,
    ) -> Result<Summary, NoMemory>
        ensures facts { IfOk result (λ summary. summary ≡ summary_with name.now self.now trap bound) }
        // Of the facts of any rows it is the summary of those rows.
        ensures rows { (weights : WeightParts) (threshold : ℕ) (rows : List Row) →
            self.now ≡ facts_of weights threshold rows → IfOk result (λ summary.
            summary ≡ summary_of name.now rows trap threshold weights bound) }
    {
        let name = String::from_str(alloc, name)?;
        Ok(Summary {
            name: Text::new(name),
            first: self.first,
            off: self.off,
            trap,
            confirmed: self.confirmed,
            bound,
        })
    }

    /// The reaction of the run, in ticks: from the first tick by which a true excess is confirmed until the
    /// power stages are off for good (docs/CONCEPT.md, "`soak`"). None where no true excess is confirmed, or
    /// the power stages are on at the last tick.
    #[tactic(auto, unfolding(crate::specs::Facts::reaction_in))]
    pub fn reaction(&self) -> Option<u32>
        ensures { result ≡ reaction_in self.now }
    {
        reaction_by(self.last_on, self.confirmed, self.ticks)
    }

    /// The facts of no rows.
    pub(crate) fn new() -> Facts
        ensures { (weights : WeightParts) (threshold : ℕ) → result ≡ facts_of weights threshold [] }
    {
        Facts {
            first: None,
            cut: None,
            off: None,
            last_on: None,
            confirmed: None,
            stretch: 0,
            peak: 0,
            ticks: 0,
        }
    }

    /// One row more, at which the true excess is confirmed or isn't, and up to which `lasts` rows in a row
    /// have one.
    #[tactic(auto, unfolding(crate::specs::Inner::RowMore::facts_with, crate::specs::Stages::off_at))]
    pub(crate) fn add(&mut self, row: &Row, threshold: u16, is_confirmed: bool, lasts: u32)
        requires fewer { self.old.ticks < 20000 }
        requires lasts { lasts ≡ 0 → true_excess threshold row.now ≡ false }
        ensures { self.new ≡ facts_with threshold row.now is_confirmed lasts self.old }
    {
        note_detection(&mut self.first, &row.found, row.tick);
        note_cut(&mut self.cut, row, self.first.is_some());
        note_tick(&mut self.off, row.tick, is_off(row));
        note_on(&mut self.last_on, row);
        note_tick(&mut self.confirmed, row.tick, is_confirmed);
        self.note_excess(row, threshold, lasts);
        self.ticks += 1;
    }

    /// Notes how long the excess of a row lasts, and how great it is. There is none where it lasts for no
    /// row.
    fn note_excess(&mut self, row: &Row, threshold: u16, lasts: u32)
        requires { lasts ≡ 0 → true_excess threshold row.now ≡ false }
        ensures { self.new ≡ record self.old {
          stretch = max self.old.stretch lasts;
          peak = max self.old.peak (above threshold row.now);
        } }
    {
        if lasts > 0 {
            self.stretch = self.stretch.max(lasts);
            self.peak = self.peak.max(above(row, threshold));
        }
    }
}

/// How many ticks pass from the one by which a true excess is confirmed until the stages are off for good,
/// where `last_on` is the last tick at which they are on, and `end` the tick after the last one.
#[tactic(auto, unfolding(crate::specs::Facts::off_from))]
pub(crate) fn reaction_by(last_on: Option<u32>, confirmed: Option<u32>, end: u32) -> Option<u32>
    ensures { result ≡ reaction_by last_on confirmed end }
{
    // Where the sum would pass the greatest u32, which no run reaches, the answer is None either way.
    let off_from = last_on.map_or(0, |last| last.saturating_add(1));
    match confirmed {
        Some(confirmed) if off_from < end => Some(off_from.saturating_sub(confirmed)),
        _ => None,
    }
}

/// Notes what is found at a tick, unless something is noted already.
fn note_detection(first: &mut Option<(Watch, u32)>, found: &Watches, tick: u32)
    ensures { first.new ≡ option_or first.old (option_map (λ watch. (watch, tick)) (first_watch found.now)) }
{
    if first.is_none() {
        if let Some(watch) = Watch::first_among(found) {
            *first = Some((watch, tick));
        }
    }
}

/// Notes which watch that cuts is found at a row, unless one is noted already. Where nothing was detected up
/// to the row, nothing need be looked for.
fn note_cut(cut: &mut Option<(Watch, u32)>, row: &Row, is_detected: bool)
    requires { IsFalse is_detected → detected_at row.now ≡ None }
    ensures { cut.new ≡ option_or cut.old (detected_at (cutting_at row.now)) }
{
    if is_detected {
        note_detection(cut, &cutting(&row.found), row.tick);
    }
}

/// Notes the tick of a row at which the stages are on, in place of any earlier one.
pub(crate) fn note_on(last: &mut Option<u32>, row: &Row)
    ensures { last.new ≡ if row.now.on then Some row.now.tick else last.old }
{
    if row.on {
        *last = Some(row.tick);
    }
}

/// Notes a tick at which something is so, unless one is noted already.
pub(crate) fn note_tick(first: &mut Option<u32>, tick: u32, is_so: bool)
    ensures { first.new ≡ option_or first.old (if is_so then Some tick else None) }
{
    if is_so && first.is_none() {
        *first = Some(tick);
    }
}
