// How long an excess may last under lapses.
ghost use Rattle.eg_plant.specs.declared.engine_kind.EngineKind.{EngineKind};
ghost use Rattle.eg_model.specs.Engines.{bench_of};
ghost use Rattle.eg_laws.specs.MissedStretch.{MissedStretchesEnd, RecordsEndMissedStretches, GreatExcessEnds, RecordsEndGreatExcess};

/// How long an excess may last under lapses (docs/CONCEPT.md, "Lapses"), for histories of any engine and for
/// records. It does nothing when it runs.
///
/// Claim 96 (C103; `ends`, `records`): Under lapses, each stretch of true excess in a drive span has at most
/// `missed` ticks, if the calibration has no ramp or a `fall` of 0, or if N is 1 (then with any ramp).
/// Claim 100 (C103; `great`, `great_records`): Under a lapse by which level 2 misses at most m ticks of a
/// drive span, no stretch of torque above the permitted torque, the threshold and m * `fall` together has
/// more than D + m ticks.
pub fn missed_excess_ends()
    ensures ends { MissedStretchesEnd }
    ensures records { (engine : EngineKind) → RecordsEndMissedStretches (bench_of engine) }
    ensures great { GreatExcessEnds }
    ensures great_records { (engine : EngineKind) → RecordsEndGreatExcess (bench_of engine) }
{}
