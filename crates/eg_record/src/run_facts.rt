// What is told of a run.
use crate::{Facts, Margins, Reactions};
use eg_word::Trap;

/// What is told of a run once its rows are gone (docs/CONCEPT.md, "The report of a run" and "`table`").
#[derive(Clone, Copy)]
pub struct RunFacts {
    /// The facts of its rows.
    pub facts: Facts,
    /// The reactions in its spans.
    pub reactions: Reactions,
    /// How near the run came to a cut, where it was weighed.
    pub margins: Margins,
    /// Level 1's trap, with the tick at which it came, if any.
    pub trap: Option<(Trap, u32)>,
}
