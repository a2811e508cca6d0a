// How long the permitted torque lies above what the driver demands.
ghost use Rattle.eg_plant.specs.declared.engine_kind.EngineKind.{EngineKind};
ghost use Rattle.eg_model.specs.Engines.{bench_of};
ghost use Rattle.eg_laws.specs.Ramps.{NoRampTakesNoTick, LevelRampHasNoEnd, RecordsLeaveRamps, RecordsComeDownRamps, RecordsPermitDemand};

/// How long and how far the ramp holds the permitted torque above the demand (docs/CONCEPT.md, "Torque").
/// Without a ramp that is no tick (`none`), and the permitted torque is the demand at each row (`demand`). A
/// ramp that never comes down has no such number (`endless`). It does nothing when it runs.
///
/// Claim 73 (C95, C96; `ticks`, `falls`): Without a fault or under a valid one, and as long as no raise in a
/// drive span passes the greatest number of the permit table: the permitted torque lies above the demand for
/// fewer ticks in a row than `ramp`, if the calibration has that number, and at no tick if it is 0. At the
/// k-th of these ticks it lies above the demand by at most the greatest number of the table, less its least
/// number, less k * `fall`.
pub fn records_leave_ramps()
    ensures ticks { (engine : EngineKind) → RecordsLeaveRamps (bench_of engine) }
    ensures falls { (engine : EngineKind) → RecordsComeDownRamps (bench_of engine) }
    ensures none { NoRampTakesNoTick }
    ensures demand { (engine : EngineKind) → RecordsPermitDemand (bench_of engine) }
    ensures endless { LevelRampHasNoEnd }
{}
