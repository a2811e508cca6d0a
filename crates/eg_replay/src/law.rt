// The law of replays: closed and open loop agree.
ghost use Rattle.eg_plant.specs.declared.engine_kind.EngineKind.{EngineKind};
ghost use Rattle.eg_model.specs.Engines.{bench_of};
ghost use Rattle.eg_replay.specs.Agreement.{SpansAgree, RunsAgree, RunsWithoutResetAgree, FaultsSpareLevel2, RowsShowTheSame};

/// Does nothing when it runs. Its clauses are laws: closed and open loop agree (docs/CONCEPT.md, "`replay`
/// and `signals`"). `span` says it of histories of any engine, and `whole` of all ticks before the first
/// that resets the unit.
///
/// Claim 55 (C86; `run`): What level 2 told at the ticks of a drive span, up to any of them, a replay of the
/// readings that level 2 was given at them tells too, if all its modules ran at each of these ticks, nothing
/// disturbed them, and no word was flipped.
/// Claim 56 (C86; `faults`): That is so without a fault, before the onset of one, and under each class but
/// `skip`, `disturb`, `flip`, `halt` and `lapse`.
/// Claim 57 (C85, C86; `rows`): The signals and the watches that are told are those of the rows of the
/// record. The exceptions are `answers` and `start`, which level 2 doesn't find and a replay doesn't tell.
pub fn open_loop_agrees()
    ensures span { SpansAgree }
    ensures run { (engine : EngineKind) → RunsAgree (bench_of engine) }
    ensures whole { (engine : EngineKind) → RunsWithoutResetAgree (bench_of engine) }
    ensures faults { FaultsSpareLevel2 }
    ensures rows { RowsShowTheSame }
{}
