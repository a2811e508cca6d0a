// Throttles that never cut.
ghost use Rattle.eg_plant.specs.declared.engine_kind.EngineKind.{EngineKind};
ghost use Rattle.eg_laws.specs.NeverCuts.{PermittedThrottlesNeverCut};

/// Throttles that never cut (docs/CONCEPT.md, "Torque"). It does nothing when it runs.
///
/// Claim 90 (C101): Let the torque estimate of the greatest load that the engine can come to, while its
/// throttle stays at an angle or below, be at most the least permitted torque and the threshold together.
/// Then no run without a fault whose throttle stays there is cut: the stages are on at each row of each
/// drive span.
pub fn permitted_throttles_never_cut()
    ensures { (engine : EngineKind) → PermittedThrottlesNeverCut engine }
{}
