// The laws of all faults. None of these functions does anything when it runs.
ghost use Rattle.eg_fault.specs.Classes.{OneTrackIsFaulty, PressedBrakesAreSeen, PlatesAreHeldWithin, FlipsAreInWords, FaultsCheckFlips, OneOfEightIsLeftOut, FaultsDisturbOne, OthersSpareLevels, OthersSpareAnswers, WildStaysWild, OthersObeyLatches};
ghost use Rattle.eg_fault.specs.Names.{NamesAreRead, KeysAreOwn};
ghost use Rattle.eg_fault.specs.Running.{RunningLaw};

/// A law: without a fault and under any fault all modules of level 2 run at a tick, or none does, or all but
/// one, and then it is the same one at each tick from the onset on (docs/CONCEPT.md, "Faults").
#[tactic(auto, using(crate::proofs::RunningLemmas::running_law))]
pub fn modules_run_together()
    ensures { RunningLaw }
{}

/// Laws of what a fault leaves alone (docs/CONCEPT.md, "Faults"): a brake that the driver presses is taken as
/// pressed; level 1 and level 2, the ticks of answers, and a path whose latch is open are as without a fault,
/// but for the classes that may change them; and a monitoring module that isn't wild at a tick wasn't wild at
/// any tick before.
///
/// Claim 32 (C38; `tracks`): Under each fault, all tracks but one are sound at all ticks. The one that may
/// not be sound is the same at all ticks.
pub fn faults_leave_the_rest()
    ensures tracks { OneTrackIsFaulty }
    ensures brake { PressedBrakesAreSeen }
    ensures levels { OthersSpareLevels }
    ensures answers { OthersSpareAnswers }
    ensures wild { WildStaysWild }
    ensures paths { OthersObeyLatches }
{}

/// A law: under a valid fault a plate that is held is held at 1000 per mille at most (docs/CONCEPT.md,
/// "Faults").
#[tactic(auto, using(crate::proofs::ClassLemmas::plates_are_held_within))]
pub fn plates_are_held_within()
    ensures { PlatesAreHeldWithin }
{}

/// Laws of what a fault does in level 2 (docs/CONCEPT.md, "Faults"): module 0 runs at each tick at which a
/// word is flipped. Under a valid fault the flipped word is one of level 2's, and at least one of its bits is
/// flipped; a module that is left out is one of the eight; and at most one module is disturbed.
pub fn faults_stay_in_level2()
    ensures checks { FaultsCheckFlips }
    ensures flips { FlipsAreInWords }
    ensures left_out { OneOfEightIsLeftOut }
    ensures disturbed { FaultsDisturbOne }
{}

/// Laws of how classes are spelt (docs/FORMATS.md, "Campaign files"): the name that is written of a class is
/// read as that class, and the keys that are written of it are those that are read for it.
pub fn classes_are_read_as_written()
    ensures names { NamesAreRead }
    ensures keys { KeysAreOwn }
{}
