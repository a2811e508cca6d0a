// The reaction theorem.
ghost use Rattle.eg_model.specs.Reaction.{ReactsInTime, ReactsAtOnce, CutsFromOnset};

/// The reaction theorem for histories of any engine that keeps its laws (docs/CONCEPT.md, "Why the unit
/// reacts"). `at_once` says for them what claim 3 says of records. It does nothing when it runs.
///
/// Claim 4 (C53, C62; `in_time`): Claim 2 holds for any engine that keeps its laws, and for histories that
/// begin at any tick of a run, as each drive span does.
pub fn reacts_in_time()
    ensures in_time { ReactsInTime }
    ensures at_once { ReactsAtOnce }
{}

/// What spoils the answers cuts, whatever the torque (docs/CONCEPT.md, "Why the unit reacts"): what claim 7
/// says of records, for histories of any engine. It does nothing when it runs.
pub fn cuts_from_onset()
    ensures { CutsFromOnset }
{}
