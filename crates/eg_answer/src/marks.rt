// How an answer and a period of answers are judged.

/// The verdict over the answers of a period (docs/CONCEPT.md, "Questions and answers").
#[derive(Clone, Copy)]
pub enum Verdict {
    /// One answer came, inside the window, and it was the expected number.
    Right,
    /// Anything else.
    Wrong,
}

/// The mark of a tick (docs/CONCEPT.md, "Questions and answers"): whether level 2 sent an answer, and whether
/// it was good.
#[derive(Clone, Copy)]
pub enum AnswerMark {
    /// No answer was sent.
    Absent,
    /// An answer was sent, all eight modules of level 2 ran at each tick since the answer before, and none is
    /// disturbed at this tick.
    Good,
    /// An answer was sent that isn't good.
    Bad,
}
