// The laws of records of runs on the bench, for each engine. They are proved of any engine that keeps
// `KeepsBenchLaws`, the sharp cut of one that keeps `ShowsOneLoad` too.
ghost use Rattle.eg_plant.specs.declared.engine_kind.EngineKind.{EngineKind};
ghost use Rattle.eg_model.specs.Engines.{bench_of};
ghost use Rattle.eg_laws.specs.InTime.{RecordsReactInTime};
ghost use Rattle.eg_model.specs.PowerCycles.{RecordsBeginInTurn};
ghost use Rattle.eg_laws.specs.Showing.{RecordsShowRuns};
ghost use Rattle.eg_model.specs.Records.{RecordsAreHistories, RecordsAreRows, RecordsReact, RecordsReactAtOnce, RecordsCutFromOnset, RecordsCutSharply, RecordsCutSharplyBefore, RecordsCutStandingExcess, RecordsHaveShortExcess, RecordsTestUnpowered, RecordsPassTests};

/// The record of a run on the bench is a history from tick 0, and its rows are numbered from 0 on
/// (docs/CONCEPT.md, "The record of a run"). With no fault or a valid one they have the rows of the drive,
/// the torque that these permit, and what the engine shows as it steps from row to row. It does nothing when
/// it runs.
pub fn records_are_histories()
    ensures histories { (engine : EngineKind) → RecordsAreHistories (bench_of engine) }
    ensures rows { (engine : EngineKind) → RecordsAreRows (bench_of engine) }
    ensures shown { (engine : EngineKind) → RecordsShowRuns (bench_of engine) }
{}

/// The reaction theorem for runs on the bench with no fault or a listed one (docs/CONCEPT.md, "Why the unit
/// reacts"). It does nothing when it runs.
///
/// Claim 2 (C62; `in_time`): Under at most one listed fault, the stages are off in each drive span from R
/// ticks after the tick at which a true excess is first confirmed in the span, up to the span's end.
/// Claim 3 (C60, C62; `at_once`): Under at most one listed fault, the stages are off from the tick after a
/// true excess is confirmed, up to the drive span's end. Exceptions are `path1-closed`, and a `skip`,
/// `disturb` or `halt` that has begun by the tick that confirms. Lapses aren't listed faults, so nothing is
/// said of them here.
pub fn records_react()
    ensures in_time { (engine : EngineKind) → RecordsReact (bench_of engine) }
    ensures at_once { (engine : EngineKind) → RecordsReactAtOnce (bench_of engine) }
{}

/// What spoils the answers cuts, whatever the torque (docs/CONCEPT.md, "Why the unit reacts"). It does
/// nothing when it runs.
///
/// Claim 7 (C63): Under `skip`, `disturb` and `halt`, the stages are off in each drive span from R ticks
/// after the onset, whatever the torque. If the drive span begins after the onset, the R ticks count from
/// its beginning.
pub fn records_cut_from_onset()
    ensures { (engine : EngineKind) → RecordsCutFromOnset (bench_of engine) }
{}

/// The sharp cut for runs on the bench (docs/CONCEPT.md, "Why the unit reacts"). It does nothing when it
/// runs.
///
/// Claim 9 (C68; `rows`): Without a fault, the stages are on in each drive span up to the tick at which a
/// full-efficiency excess is first confirmed in the span, this tick included, and off at each later tick of
/// the span. If none is confirmed, they are on at each tick of the span.
/// Claim 10 (C68; `before`): Under any fault, what claim 9 says holds at each tick before the onset.
pub fn records_cut_sharply()
    ensures rows { (engine : EngineKind) → RecordsCutSharply (bench_of engine) }
    ensures before { (engine : EngineKind) → RecordsCutSharplyBefore (bench_of engine) }
{}

/// What is told of the reactions of a run once its rows are gone (docs/CONCEPT.md, "`table`"). It does
/// nothing when it runs.
///
/// Claim 8 (C80, C81): Under at most one listed fault, `reaction` of `table` is at most R in each run that
/// has one. Each run whose `settled` is 1 has one.
pub fn spans_react_in_time()
    ensures { (engine : EngineKind) → RecordsReactInTime (bench_of engine) }
{}

/// The laws of lapses for a calibration that has a bound (docs/CONCEPT.md, "Lapses"). By `cut`, true excess
/// that stands for `lapse_periods` whole periods is cut. It does nothing when it runs.
///
/// Claim 21 (C71; `short`): Under lapses, each stretch of true excess in a drive span is shorter than `lapse`
/// of `limits`, if the calibration has that number. Claim 96 says more.
pub fn records_cut_standing_excess()
    ensures cut { (engine : EngineKind) → RecordsCutStandingExcess (bench_of engine) }
    ensures short { (engine : EngineKind) → RecordsHaveShortExcess (bench_of engine) }
{}

/// The start-up test and the power cycles, by the rows of the record of a run on the bench (docs/CONCEPT.md,
/// "Power cycles"). It does nothing when it runs.
///
/// Claim 12 (C41, C68; `passes`): Without a fault, and before the onset of one, no start-up test fails.
/// Claim 18 (C41; `unpowered`): In each test span the stages are off, whatever the fault.
/// Claim 19 (C40; `cycles`): A test span begins at each row that resets the unit. At a row that doesn't, a
/// drive span begins exactly if the row is the first of the run, or if a start-up test was passed at the row
/// before. So a drive span lasts to the end of its power cycle.
pub fn records_test_the_paths()
    ensures cycles { (engine : EngineKind) → RecordsBeginInTurn (bench_of engine) }
    ensures unpowered { (engine : EngineKind) → RecordsTestUnpowered (bench_of engine) }
    ensures passes { (engine : EngineKind) → RecordsPassTests (bench_of engine) }
{}
