// Level 2 and the model agree over whole spans.
ghost use Rattle.eg_agree.specs.Agreement.{WordsStand, FlowStands, EachAnswerHolds, WordsRest, LastChecksStand, LastCheckIsKept};

/// Does nothing when it runs. Its clauses are laws of the eight modules of level 2 over a span of either
/// kind, for an accepted calibration (docs/CONCEPT.md, "Level 2"). In a span of fewer than 65,536 ticks the
/// words also tell of the program flow (`flow`). Where the modules ran at each tick and no word was flipped,
/// the token is 0 and the flow unmarked (`rests`). The word for the last tick is the last tick at which
/// module 0 ran, or 65535.
///
/// Claim 28 (C24, C26, C47; `words`): After every history of a span, under any fault, level 2's words stand
/// for the signals, the counters, the limited operation and the trip of the model.
/// Claim 29 (C28, C32; `answers`): In the first 65,535 ticks of a span, without a fault and under each valid
/// one, lapses too, an answer is the expected number exactly if the model calls it good: all eight modules
/// ran at each tick since the answer before (or since the span began), and none is disturbed at the tick at
/// which it is sent.
pub fn level_2_agrees()
    ensures words { WordsStand }
    ensures flow { FlowStands }
    ensures answers { EachAnswerHolds }
    ensures rests { WordsRest }
    ensures last { LastChecksStand }
    ensures last_tick { LastCheckIsKept }
{}
