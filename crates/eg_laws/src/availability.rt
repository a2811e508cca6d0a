// Availability: under which lapses wrong answers never cut before a trip.
ghost use Rattle.eg_laws.specs.Availability.{KeepsPath2, FewMissesKeepPath2, TripsAloneCut, NoTripComes, SingleMissesAreSpaced, RecordsStayAvailable};
ghost use Rattle.eg_plant.specs.declared.engine_kind.EngineKind.{EngineKind};
ghost use Rattle.eg_model.specs.Engines.{bench_of};

/// Under which lapses wrong answers never cut before a trip (docs/CONCEPT.md, "Lapses"), for histories of any
/// engine. By `path_2` and `trips`, in a drive span in which any two ticks that level 2 misses lie at least
/// `eg_answer::miss_spacing` ticks apart, wrong answers aren't confirmed as long as no trip has come, path 2
/// isn't ordered open, and a trip alone cuts. By `single`, a lapse that leaves out a single tick, or one tick
/// every `miss_spacing` ticks or more, keeps that distance. It does nothing when it runs.
///
/// Claim 99 (C73; `few`): Let the weights `limit` and `up` be those of the answers. If level 2 misses at most
/// `(limit - 1)/(2*up)` ticks of a drive span under a lapse (rounded down, wherever these ticks lie), wrong
/// answers aren't confirmed before a trip, and path 2 isn't ordered open.
/// Claim 76 (C73; `none`): Under lapses, with a calibration without a ramp, and if the engine shows one load
/// twice, no trip comes in a drive span that has no full-efficiency excess at any tick.
pub fn far_misses_never_cut()
    ensures path_2 { KeepsPath2 }
    ensures few { FewMissesKeepPath2 }
    ensures trips { TripsAloneCut }
    ensures none { NoTripComes }
    ensures single { SingleMissesAreSpaced }
{}

/// What wrong answers leave on under lapses (docs/CONCEPT.md, "Lapses"). `answers` finds nothing and path 2
/// conducts as long as no trip has come; without a ramp, and if the full-efficiency excess comes at no row,
/// the stages are on at each row. It does nothing when it runs.
///
/// Claim 23 (C73): In a drive span in which the ticks that a lapse makes level 2 miss lie `spacing` or more
/// ticks apart, the stages are on exactly until the first trip.
pub fn records_stay_available()
    ensures { (engine : EngineKind) → RecordsStayAvailable (bench_of engine) }
{}
