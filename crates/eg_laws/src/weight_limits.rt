// Runs whose calibrations differ in the limit of some weights alone.
ghost use Rattle.eg_plant.specs.declared.engine_kind.EngineKind.{EngineKind};
ghost use Rattle.eg_model.specs.Engines.{bench_of};
ghost use Rattle.eg_laws.specs.WeightLimits.{RecordsDisregardTorqueLimit, RecordsDisregardPairLimit};

/// What the limits of weights don't touch (docs/CONCEPT.md, "Debouncing"), for each engine, whatever image,
/// drive and fault. It does nothing when it runs.
///
/// Claim 74 (C97; `torque`, `pairs`): Two runs whose calibrations differ in the limit of the torque's
/// weights alone are the same at all ticks before the first at which `torque` finds something in either. If
/// they differ in the limit of the pairs' weights alone, they are the same at all ticks before the first at
/// which the watch of a pair finds something in either.
pub fn records_disregard_limits()
    ensures torque { (engine : EngineKind) → RecordsDisregardTorqueLimit (bench_of engine) }
    ensures pairs { (engine : EngineKind) → RecordsDisregardPairLimit (bench_of engine) }
{}
