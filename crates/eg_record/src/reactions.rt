// The reactions of a run, span by span.
ghost use Rattle.std.specs.Prelude.{◌≡◌};
ghost use Rattle.eg_record.specs.Reactions.{combined, greater, is_settled, less};

/// What is told of the reactions of a run once its rows are gone (docs/CONCEPT.md, "`table`"). Spans are the
/// stretches of ticks in which the engine is driven, and the test spans: one whose test fails goes on to the
/// next reset, or to the end of the run.
#[derive(Clone, Copy)]
pub struct Reactions {
    /// The longest of the reactions of its spans, in ticks, or None where no span has one. A span in which an
    /// excess is confirmed and the power stages are on at the last tick has none.
    pub longest: Option<u32>,
    /// The least number of ticks that follow, in its span, the first tick by which a true excess is confirmed
    /// in it, or None where none is confirmed.
    pub followed: Option<u32>,
}

impl Reactions {
    /// Whether each span in which a true excess is confirmed has `bound` ticks or more after the first one by
    /// which it is confirmed, so that the run shows whether a reaction takes more than `bound` ticks
    /// (docs/CONCEPT.md, "`table`").
    #[tactic(auto, unfolding(crate::specs::Reactions::is_settled, crate::specs::Reactions::settled_by))]
    pub fn is_settled(&self, bound: u32) -> bool
        ensures { result ≡ is_settled bound self.now }
    {
        match self.followed {
            Some(ticks) => bound <= ticks,
            None => true,
        }
    }

    /// What is told of these spans and of others.
    #[tactic(auto, unfolding(crate::specs::Reactions::combined))]
    pub(crate) fn and(&self, others: &Reactions) -> Reactions
        ensures { result ≡ combined self.now others.now }
    {
        Reactions {
            longest: greater(self.longest, others.longest),
            followed: less(self.followed, others.followed),
        }
    }
}

/// The greater of two numbers, each of which may be missing.
#[tactic(auto, unfolding(crate::specs::Reactions::greater))]
fn greater(one: Option<u32>, other: Option<u32>) -> Option<u32>
    ensures { result ≡ greater one other }
{
    match (one, other) {
        (Some(one), Some(other)) => Some(one.max(other)),
        (Some(one), None) => Some(one),
        (None, other) => other,
    }
}

/// The less of two numbers, each of which may be missing.
#[tactic(auto, unfolding(crate::specs::Reactions::less))]
fn less(one: Option<u32>, other: Option<u32>) -> Option<u32>
    ensures { result ≡ less one other }
{
    match (one, other) {
        (Some(one), Some(other)) => Some(one.min(other)),
        (Some(one), None) => Some(one),
        (None, other) => other,
    }
}
