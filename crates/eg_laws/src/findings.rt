// What the watches find, by the records of runs on the bench, for each engine.
ghost use Rattle.eg_plant.specs.declared.engine_kind.EngineKind.{EngineKind};
ghost use Rattle.eg_model.specs.Engines.{bench_of};
ghost use Rattle.eg_laws.specs.Findings.{RecordsFindBeforeOff, RecordsFindFailures, ReportsNameWhatCuts, RecordsFindFromOnset, RecordsTellFlips, RecordsFindSharply};

/// No cut without a watch (docs/CONCEPT.md, "Why the unit reacts"). So where a report tells `off` and names
/// no watch, a shut-off path doesn't conduct, or a wild monitoring module orders path 2 open. It does
/// nothing when it runs.
///
/// Claim 13 (C69; `driven`): Wherever the stages are off in a drive span, a cutting watch has found
/// something at an earlier row of the span. The exception is a `path-open`, or a `wild` that orders path 2
/// open, that has begun by then.
/// Claim 14 (C59, C69; `reports`): With the same exception, a report that tells `off` names a watch that
/// found something before that tick.
/// Claim 20 (C52, C69; `tested`): In a test span, wherever no test is running any more, the test has failed,
/// and `start` has found it at an earlier row of the span, whatever the fault.
pub fn records_name_what_cuts()
    ensures driven { (engine : EngineKind) → RecordsFindBeforeOff (bench_of engine) }
    ensures tested { (engine : EngineKind) → RecordsFindFailures (bench_of engine) }
    ensures reports { (engine : EngineKind) → ReportsNameWhatCuts (bench_of engine) }
{}

/// Found in time (docs/CONCEPT.md, "Why the unit reacts"). It does nothing when it runs.
///
/// Claim 16 (C70; `onset`): Under `skip`, `disturb` and `halt`, whatever the torque, a cutting watch has
/// found something in a drive span once the span has lasted for R ticks since the onset. If the span begins
/// after the onset, the R ticks count from its beginning.
/// Claim 17 (C48, C70; `flips`): `mirror` finds at the onset of a `flip`, and at no other tick, in drive and
/// test spans.
pub fn records_find_in_time()
    ensures onset { (engine : EngineKind) → RecordsFindFromOnset (bench_of engine) }
    ensures flips { (engine : EngineKind) → RecordsTellFlips (bench_of engine) }
{}

/// What is found while nothing is out of order outside level 1 (docs/CONCEPT.md, "Why the unit reacts"). It
/// does nothing when it runs.
///
/// Claim 11 (C48, C68): In each drive span, without a fault and before the onset of one, `torque` finds
/// exactly at the tick at which a full-efficiency excess is first confirmed, and `answers` finds nothing
/// before that tick. The watches `mirror`, `pedal`, `plate`, `load` and `speed` find nothing.
pub fn records_find_sharply()
    ensures { (engine : EngineKind) → RecordsFindSharply (bench_of engine) }
{}
