// What is kept of the spans of rows that are gone.
ghost use Rattle.std.specs.Prelude.{◌≡◌, ◌+◌, ◌-◌, None, option_map};
ghost use Rattle.eg_record.specs.Reactions.{combined, no_reactions};
ghost use Rattle.eg_record.specs.Inner.RowMore.{ended_at, gone_on, spans_with, span_reactions};

use crate::facts::{note_on, note_tick, reaction_by};
use crate::{Reactions, Row};

/// What is kept of the span that is going on, and the reactions of those that have ended.
#[derive(Clone, Copy)]
pub(crate) struct SpanTally {
    /// The last tick of the span at which the power stages are on, or None.
    last_on: Option<u32>,
    /// The first tick by which the true excess is confirmed in the span, or None.
    confirmed: Option<u32>,
    /// The reactions in the spans before it.
    ended: Reactions,
}

impl SpanTally {
    /// What is kept before the first row.
    #[tactic(auto, unfolding(crate::specs::Reactions::no_reactions))]
    pub(crate) fn new() -> SpanTally
        ensures last_on { result.last_on ≡ None }
        ensures confirmed { result.confirmed ≡ None }
        ensures ended { result.ended ≡ no_reactions }
    {
        SpanTally {
            last_on: None,
            confirmed: None,
            ended: Reactions {
                longest: None,
                followed: None,
            },
        }
    }

    /// One row more, at which the true excess is confirmed or isn't.
    #[tactic(auto, unfolding(crate::specs::Inner::RowMore::spans_with))]
    pub(crate) fn add(&mut self, row: &Row, is_confirmed: bool)
        ensures { self.new ≡ spans_with row.now is_confirmed self.old }
    {
        if row.fresh {
            self.end(row.tick);
        }
        self.go_on(row, is_confirmed);
    }

    /// The reactions in all spans, where this is the tick after the last one.
    pub(crate) fn reactions_to(&self, end: u32) -> Reactions
        ensures { result ≡ combined (span_reactions end self.now) self.now.ended }
    {
        self.span_reactions(end).and(&self.ended)
    }

    /// The span ends before this tick. It isn't inlined, since few rows end one: so a tally that is fed stays
    /// in memory, and a row changes there what it must.
    #[cold]
    #[inline(never)]
    #[tactic(auto, unfolding(crate::specs::Inner::RowMore::ended_at))]
    fn end(&mut self, end: u32)
        ensures { self.new ≡ ended_at end self.old }
    {
        self.ended = self.reactions_to(end);
        self.last_on = None;
        self.confirmed = None;
    }

    /// One row more of the span.
    #[tactic(auto, unfolding(crate::specs::Inner::RowMore::gone_on))]
    fn go_on(&mut self, row: &Row, is_confirmed: bool)
        ensures { self.new ≡ gone_on row.now is_confirmed self.old }
    {
        note_on(&mut self.last_on, row);
        note_tick(&mut self.confirmed, row.tick, is_confirmed);
    }

    /// What is told of the span, where it ends before this tick.
    #[tactic(auto, unfolding(crate::specs::Inner::RowMore::span_reactions))]
    fn span_reactions(&self, end: u32) -> Reactions
        ensures { result ≡ span_reactions end self.now }
    {
        Reactions {
            longest: reaction_by(self.last_on, self.confirmed, end),
            followed: followed(self.confirmed, end),
        }
    }
}

/// How many ticks follow the one by which the excess is confirmed, before this tick.
fn followed(confirmed: Option<u32>, end: u32) -> Option<u32>
    ensures { result ≡ option_map (λ c. end - (c + 1)) confirmed }
{
    match confirmed {
        Some(confirmed) => Some(end.saturating_sub(confirmed).saturating_sub(1)),
        None => None,
    }
}
