// What one play tells of the limits of the torque's weights.
ghost use Rattle.eg_plant.specs.declared.engine_kind.EngineKind.{EngineKind};
ghost use Rattle.eg_model.specs.Engines.{bench_of};
ghost use Rattle.eg_play.specs.LeastLimits.{RecordsTellLimits, RecordsTellLeastLimit};

/// Does nothing when it runs. Its clauses are laws of `margins` (docs/CONCEPT.md, "`margins`"), for each
/// engine, every accepted calibration, image, drive and fault.
///
/// Claim 75 (C98; `tells`, `least`): By each limit of the torque's weights from 1 to a tried one, which is
/// at most 10,000, `torque` finds something in a run exactly if the weight that `margins` tells by the tried
/// limit is at least that limit. So if this weight is less than the tried limit, one more than the weight is
/// the least limit by which `torque` finds nothing.
pub fn margins_tell_limits()
    ensures tells { (engine : EngineKind) → RecordsTellLimits (bench_of engine) }
    ensures least { (engine : EngineKind) → RecordsTellLeastLimit (bench_of engine) }
{}
