// When the watches of the four pairs are found.
ghost use Rattle.eg_plant.specs.declared.engine_kind.EngineKind.{EngineKind};
ghost use Rattle.eg_model.specs.Engines.{bench_of};
ghost use Rattle.eg_laws.specs.PairsFound.{RecordsFindPairs, DisagreeingRowsAreFound};

/// When the watches of the four pairs find something (docs/CONCEPT.md, "Level 2"), by the readings that the
/// fault makes of each row. It does nothing when it runs.
///
/// Claim 77 (C48, C99; `exact`): In a drive span with undisturbed modules, the watch of a pair finds exactly
/// at the row at which the disagreements of the pair first reach the limit of the pairs' weights, unless a
/// trip came at an earlier row.
/// Claim 78 (C99; `stretches`): There, if a pair disagrees at as many rows in a row as are enough to confirm,
/// its watch has found something by the last of these rows, or a trip has come.
pub fn records_find_pairs()
    ensures exact { (engine : EngineKind) → RecordsFindPairs (bench_of engine) }
    ensures stretches { (engine : EngineKind) → DisagreeingRowsAreFound (bench_of engine) }
{}
