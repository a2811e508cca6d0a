// What `table` tells of a run keeps the limits of its calibration.
ghost use Rattle.eg_laws.specs.Limits.{RecordsKeepLimits};
ghost use Rattle.eg_plant.specs.declared.engine_kind.EngineKind.{EngineKind};
ghost use Rattle.eg_model.specs.Engines.{bench_of};

/// What `table` tells of the record of a run on the bench keeps the limits of its calibration
/// (docs/CONCEPT.md, "`table`"). Where the reaction is always at once, as without a fault, `stretch` is at
/// most D. It does nothing when it runs.
///
/// Claim 47 (C65, C77): In `table`, `stretch` is at most D - 1 + R under at most one listed fault. Under each
/// fault, lapses too, `peak` is at most `peak` of `limits`.
/// Claim 93.
pub fn records_keep_limits()
    ensures { (engine : EngineKind) → RecordsKeepLimits (bench_of engine) }
{}
