// A level 2 that never runs again, or that keeps missing ticks, is cut.
ghost use Rattle.eg_laws.specs.MissedTicks.{LapsesKeepMissing, NeverRunsAgain, RecordsCutMisses, RecordsCutForGood, RecordsOpenAtMisses};
ghost use Rattle.eg_plant.specs.declared.engine_kind.EngineKind.{EngineKind};
ghost use Rattle.eg_model.specs.Engines.{bench_of};

/// Under which lapses the reaction takes R ticks at most (docs/CONCEPT.md, "Lapses"). It does nothing when it
/// runs.
///
/// Claim 93 (C102; `misses`, `lapses`): Under a lapse with `every` from 1 to the period, claims 2, 8, 41 and
/// 47 hold. They hold also under each lapse by which level 2, once it has missed a tick, misses at least one
/// of any `period` ticks in a row (C102).
/// Claim 94 (C102; `misses`): Under a lapse of claim 93, the stages are off in a drive span from R ticks
/// after each tick of the span that level 2 misses, whatever the torque. By then a cutting watch has found
/// something, if the span lasts so long.
/// Claim 97 (C102; `one_verdict`): If N is 1, path 2 is open in a drive span from R ticks after each tick of
/// the span that level 2 misses under a lapse, and `answers` has found something by then, with any ramp.
/// Claim 95 (C102; `for_good`, `never`): Under the lapse by which level 2 misses each tick from the onset on
/// (`after = [0]`, `every = 1`), the stages are off in each drive span from R ticks after the onset. If the
/// span begins after the onset, the R ticks count from its beginning.
pub fn records_cut_misses()
    ensures misses { (engine : EngineKind) → RecordsCutMisses (bench_of engine) }
    ensures for_good { (engine : EngineKind) → RecordsCutForGood (bench_of engine) }
    ensures one_verdict { (engine : EngineKind) → RecordsOpenAtMisses (bench_of engine) }
    ensures lapses { LapsesKeepMissing }
    ensures never { NeverRunsAgain }
{}
