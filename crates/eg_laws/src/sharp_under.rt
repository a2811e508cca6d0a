// The watch of the torque under faults that leave alone what level 2 reads and does.
ghost use Rattle.eg_plant.specs.declared.engine_kind.EngineKind.{EngineKind};
ghost use Rattle.eg_model.specs.Engines.{bench_of};
ghost use Rattle.eg_laws.specs.SharpUnder.{RecordsCutSharplyUnder};

/// The sharp cut under a fault that leaves the readings alone (docs/CONCEPT.md, "Why the unit reacts"),
/// before the onset and after it. It does nothing when it runs.
///
/// Claim 79 (C56, C99): In a drive span with undisturbed modules and sound tracks, `torque` finds exactly at
/// the tick at which a full-efficiency excess is first confirmed. Neither `pedal` nor `mirror`, `plate`,
/// `load` or `speed` finds anything.
/// Claim 80 (C44, C99): There path 1 conducts as the fault lets it, by a latch that is open exactly if a
/// full-efficiency excess was confirmed at an earlier tick of the span.
pub fn records_cut_sharply_under()
    ensures { (engine : EngineKind) → RecordsCutSharplyUnder (bench_of engine) }
{}
