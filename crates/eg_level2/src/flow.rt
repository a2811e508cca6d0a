// The program flow of level 2: the laws of the token, the flow, the last tick and the fold, over one tick
// and over many. They speak of level 2 alone, whatever the fault.
//
// A tick is the eight modules of level 2 one after another (`specs/Ticks.antt`). Where at each tick all
// eight run or none does, three words tell between two ticks whether all eight ran at each tick since the
// last answer (`specs/Flow.antt`, `IsSteady`). The number that is sent is then the expected one exactly
// if they did and none is disturbed now.
ghost use Rattle.eg_level2.specs.FlowLaws.{TokenTells, ReactClears, WholeTick, EmptyTick, MarkStays, TwoFlows, FoldTells};
ghost use Rattle.eg_level2.specs.FlowLaws.{NumberTells, SteadyStays, SteadyAnswers, GapAnswers, SteadyFromStart};

/// Does nothing when it runs. Its contract is two laws of the token, which is 0 as a tick begins
/// (docs/CONCEPT.md, "Questions and answers"). It is 255 as react closes exactly if all seven modules
/// before react ran, so that a token that went wrong stays wrong until then. And react clears it.
#[tactic(auto, using(crate::proofs::TickSteps::token_tells, crate::proofs::FlowSteps::react_clears))]
pub fn tokens_tell_gaps()
    ensures tells { TokenTells }
    ensures clears { ReactClears }
{}

/// Does nothing when it runs. Its contract is the laws of the flow and the last tick (docs/CONCEPT.md,
/// "Questions and answers"). A tick at which all eight modules run, with the token 0 as it begins and no
/// word that differs, leaves the flow as it was where module 0 ran just the tick before, and else marks it.
/// A tick at which none runs changes no word. A mark stays until an answer is sent, which has it too.
/// Unmarked and marked, 0x00ff and 0x80ff, are the only two flows.
pub fn flows_tell_gaps()
    ensures whole { WholeTick }
    ensures empty { EmptyTick }
    ensures stays { MarkStays }
    ensures two { TwoFlows }
{}

/// Does nothing when it runs. Its contract is a law: where all eight modules run, no word differs from its
/// complement, and at most one module is disturbed, the fold is that of the row that is asked exactly if
/// none of them is disturbed, also where a trip stands (docs/CONCEPT.md, "Questions and answers").
#[tactic(auto, using(crate::proofs::FoldSteps::fold_tells))]
pub fn folds_tell_disturbances()
    ensures { FoldTells }
{}

/// Does nothing when it runs. Its contract is a law: the number that is sent is the expected one exactly
/// if the flow is 255 and the fold is that of the row (docs/CONCEPT.md, "Questions and answers").
#[tactic(auto, using(crate::proofs::SteadyLemmas::number_tells))]
pub fn numbers_tell_both()
    ensures { NumberTells }
{}

/// Does nothing when it runs. Its contract is two laws of steady words (docs/CONCEPT.md, "Questions and
/// answers"): they stay steady over a tick at which all eight modules run and over one at which none does,
/// and so the words are steady from the start on.
#[tactic(auto, using(crate::proofs::SteadyLemmas::steady_from_start))]
pub fn words_stay_steady()
    ensures stays { SteadyStays }
    ensures start { SteadyFromStart }
{}

/// Does nothing when it runs. Its contract is two laws of answers (docs/CONCEPT.md, "Questions and
/// answers"). From steady words on, a tick at which all eight modules run has the expected number exactly
/// if all eight ran at each tick since the last answer and none is disturbed. A tick that one module
/// before react is left out of has another number.
#[tactic(auto, using(crate::proofs::SteadyLemmas::steady_answers))]
pub fn answers_tell_gaps()
    ensures steady { SteadyAnswers }
    ensures gap { GapAnswers }
{}
