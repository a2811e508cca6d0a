// Whether each shut-off path conducts.
ghost use Rattle.eg_plant.specs.declared.engine_kind.EngineKind.{EngineKind};
ghost use Rattle.eg_model.specs.Engines.{bench_of};
ghost use Rattle.eg_laws.specs.Paths.{RecordsFollowLatches, RecordsTestPaths};

/// Whether each shut-off path conducts, by the rows of the record of a run on the bench (docs/CONCEPT.md, "A
/// run, tick by tick"). It does nothing when it runs.
///
/// Claim 70 (C44; `driven`): In a drive span, each path conducts at a row as its latch and the fault say. The
/// latch is that of the watches found at the rows of the span before.
/// Claim 71 (C41, C44; `tested`): Without a fault, and before the onset of one, a start-up test keeps both
/// paths closed up to the row that reads them back, and at this row both are open.
pub fn records_tell_paths()
    ensures driven { (engine : EngineKind) → RecordsFollowLatches (bench_of engine) }
    ensures tested { (engine : EngineKind) → RecordsTestPaths (bench_of engine) }
{}
