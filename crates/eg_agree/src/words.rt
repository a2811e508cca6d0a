// What level 2's words stand for.
ghost use Rattle.eg_fault.specs.Classes.{FaultsCheckFlips};
ghost use Rattle.eg_agree.specs.Ticking.{StartLaw, TickLaw, WithinLaw};

/// Does nothing when it runs. Its clauses are laws, for an accepted calibration (docs/CONCEPT.md, "Level 2").
/// The words with which level 2 starts stand for the history without a tick. Where words stand for a history,
/// a tick of the eight modules makes them stand for the history with that tick. What the tick orders and
/// finds, and whether it answers, is then what the model says of it; and no counter passes its limit. The law
/// of a tick asks that module 0 runs where a word is flipped, which is so under every fault (`faults`).
pub fn words_stand_for_the_model()
    ensures start { StartLaw }
    ensures within { WithinLaw }
    ensures tick { TickLaw }
    ensures faults { FaultsCheckFlips }
{}
