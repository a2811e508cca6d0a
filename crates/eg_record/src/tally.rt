// The tally of the rows of a run.
ghost use Rattle.std.specs.Prelude.{◌≡◌, ◌+◌, ◌<◌, List, [], ◌∷◌};
ghost use Rattle.eg_record.specs.Facts.{facts_of};
ghost use Rattle.eg_record.specs.Reactions.{reactions_of};
ghost use Rattle.eg_record.specs.Tallies.{IsTallyOf, IsTally};

use crate::detection::{counter_at, is_excess, lasts_at};
use crate::span_tally::SpanTally;
use crate::{Facts, Reactions, Row};
use eg_num::{Counter, Weights};
use std::marker::Model;

/// A tally is fed the rows of a run one by one, from tick 0 on, and has their facts and reactions in place of
/// the rows (docs/CONCEPT.md, "The report of a run"). Contracts see its `TallyParts`, and say for which rows
/// it stands. No call takes memory.
#[derive(Clone, Copy)]
pub struct Tally {
    threshold: u16,
    weights: Weights,
    facts: Facts,
    counter: Counter,
    lasts: u32,
    spans: SpanTally,
}

impl Model for Tally {
    ghost use Rattle.eg_record.specs.Tallies.{TallyParts, IsTally};

    ghost Value = { TallyParts };

    ghost view = { λ t. record {
      threshold = t.threshold;
      weights = t.weights;
      facts = t.facts;
      value = t.counter.value;
      lasts = t.lasts;
      spans = t.spans;
    } };

    ghost invariant = { λ t. IsTally (record {
      threshold = t.threshold;
      weights = t.weights;
      facts = t.facts;
      value = t.counter.value;
      lasts = t.lasts;
      spans = t.spans;
    }) };

    ghost inverse = { λ p. record {
      threshold = p.threshold;
      weights = p.weights;
      facts = p.facts;
      counter = record { value = p.value };
      lasts = p.lasts;
      spans = p.spans;
    } };
}

impl Tally {
    /// A tally that was fed nothing. The true excess uses this threshold (tenths of Nm) and these weights.
    pub fn new(threshold: u16, weights: Weights) -> Tally
        ensures threshold { result.threshold ≡ threshold }
        ensures weights { result.weights ≡ weights }
        ensures ticks { result.facts.ticks ≡ 0 }
        // It stands for no rows.
        ensures stands { IsTallyOf result [] }
    {
        // Called for its clause alone: the weights keep their limits.
        let _limit = weights.limit();
        Tally {
            threshold,
            weights,
            facts: Facts::new(),
            counter: Counter::new(),
            lasts: 0,
            spans: SpanTally::new(),
        }
    }

    /// Feeds the row of the next tick. Its tick is the number of rows that were fed before, which is less
    /// than 20,000. It is inlined, so that a row need not be written to memory.
    #[inline(always)]
    pub fn feed(&mut self, row: &Row)
        requires tick { row.now.tick ≡ self.old.facts.ticks }
        requires fewer { self.old.facts.ticks < 20000 }
        ensures threshold { self.new.threshold ≡ self.old.threshold }
        ensures weights { self.new.weights ≡ self.old.weights }
        ensures ticks { self.new.facts.ticks ≡ self.old.facts.ticks + 1 }
        // It stands for the rows that it stood for, whichever they are, and this one.
        ensures stands { (rows : List Row) → IsTallyOf self.old rows → IsTallyOf self.new (row.now ∷ rows) }
    {
        let exceeds = is_excess(row, self.threshold);
        let mut counter = counter_at(row, self.counter);
        let is_confirmed = counter.feed(&self.weights, exceeds);
        self.counter = counter;
        self.lasts = lasts_at(row, exceeds, self.lasts);
        self.facts
            .add(row, self.threshold, is_confirmed, self.lasts);
        self.spans.add(row, is_confirmed);
    }

    /// The facts of the rows that it was fed.
    pub fn facts(&self) -> Facts
        ensures kept { result ≡ self.now.facts }
        ensures facts { (rows : List Row) → IsTallyOf self.now rows →
            result ≡ facts_of self.now.weights self.now.threshold rows }
        // Each tally stands for some rows.
        ensures some { IsTally self.now }
    {
        self.facts
    }

    /// The reactions in the spans of the rows that it was fed.
    pub fn reactions(&self) -> Reactions
        ensures reactions { (rows : List Row) → IsTallyOf self.now rows →
            result ≡ reactions_of self.now.weights self.now.threshold rows }
        ensures some { IsTally self.now }
    {
        self.spans.reactions_to(self.facts.ticks)
    }
}
