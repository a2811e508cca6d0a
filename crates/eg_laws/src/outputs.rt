// Level 1 acts by its two outputs alone, over histories and by the records of runs on the bench, for each
// engine.
ghost use Rattle.eg_plant.specs.declared.engine_kind.EngineKind.{EngineKind};
ghost use Rattle.eg_model.specs.Engines.{bench_of};
ghost use Rattle.eg_model.specs.Outputs.{SpansDisregardLevel1, RunsDisregardLevel1, RecordsActByOutputs, RecordsFollowOutputs};

/// Level 1 acts by its two outputs alone (docs/CONCEPT.md, "Why the unit reacts"), whatever its image and
/// its slices, without a fault and under every fault. By `spans` and `histories`, where the same is out of
/// order at each tick, and drive and engine are the same, all is the same but for level 1's own world; by
/// `same`, where the outputs are equal after each tick, the rows are the same. It does nothing when it runs.
///
/// Claim 24 (C70; `records`): Level 1 acts by its two outputs alone. If a run with another image and slice
/// plan has the same two outputs after each tick before some tick, its rows up to that tick, this one
/// included, are the same but for the outputs.
pub fn level_1_acts_by_its_outputs()
    ensures spans { SpansDisregardLevel1 }
    ensures histories { RunsDisregardLevel1 }
    ensures records { (engine : EngineKind) → RecordsActByOutputs (bench_of engine) }
    ensures same { (engine : EngineKind) → RecordsFollowOutputs (bench_of engine) }
{}
