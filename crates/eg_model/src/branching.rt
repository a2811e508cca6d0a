// Runs that branch, up to the tick at which a fault begins.
ghost use Rattle.eg_plant.specs.declared.engine_kind.EngineKind.{EngineKind};
ghost use Rattle.eg_model.specs.Engines.{bench_of};
ghost use Rattle.eg_model.specs.Branching.{RunsBranch, RecordsBranch};

/// Up to the tick at which a fault begins, the run under it is the run without one (docs/CONCEPT.md,
/// "Faults"): what is true of its ticks, and on the bench also what comes in, the rows and the engine. So a
/// program that has made these ticks without a fault can go on under one. It does nothing when it runs.
pub fn runs_branch()
    ensures runs { RunsBranch }
    ensures records { (engine : EngineKind) → RecordsBranch (bench_of engine) }
{}
