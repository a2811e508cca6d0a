// What level 2's words tell of the program flow, tick by tick.
ghost use Rattle.eg_agree.specs.Replies.{FlowBegins, FlowIsKept, FlowMarks};

/// Does nothing when it runs. Its contract is the theorem on answers tick by tick (docs/CONCEPT.md,
/// "Questions and answers"), for code that keeps the words from tick to tick. What the words tell of the
/// program flow is so at the start, and each tick keeps it. The number that is sent at a tick, compared with
/// the expected one, is then what the model calls it: absent where none is sent, good where it is the
/// expected one, and else bad. `level_2_agrees` says it of whole histories.
#[tactic(auto, using(crate::proofs::ReplySteps::keeps_start))]
pub fn words_tell_the_flow()
    ensures begins { FlowBegins }
    ensures kept { FlowIsKept }
    ensures marks { FlowMarks }
{}
