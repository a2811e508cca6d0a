// What each class of faults is found by, by the records of runs on the bench, for each engine.
ghost use Rattle.std.specs.Prelude.{◌≡◌, true, false, [], ◌∷◌, ◌++◌, map, replicate, reverse, Some};
ghost use Rattle.eg_answer.specs.Times.{feeds_to_confirm};
ghost use Rattle.eg_values.specs.Reference.{reference_parts};
ghost use Rattle.eg_model.specs.Rows.{rows_of};
ghost use Rattle.eg_laws.specs.LeastReaction.{closed_setting};
ghost use Rattle.eg_laws.specs.Examples.{latest_cut};
ghost use Rattle.eg_plant.specs.declared.engine_kind.EngineKind.{EngineKind};
ghost use Rattle.eg_model.specs.Engines.{bench_of};
ghost use Rattle.eg_laws.specs.Coverage.{silent_from, wrong_from, RecordsOpenPath2, RecordsCutMoved, RecordsFindClosed, RecordsFindAnswers};

/// A shut-off path that is held closed is found (docs/CONCEPT.md, "Power cycles"). It does nothing when it
/// runs.
///
/// Claim 84 (C52, C99): In each test span, `start` finds at tick W of the span, at which the paths are read
/// back, if a `path1-closed` or a `path2-closed` has begun by this tick.
pub fn closed_paths_are_found()
    ensures { (engine : EngineKind) → RecordsFindClosed (bench_of engine) }
{}

/// What spoils the answers opens path 2 (docs/CONCEPT.md, "Why the unit reacts"). It does nothing when it
/// runs.
///
/// Claim 81 (C99): Under `skip`, `disturb` and `halt`, path 2 is open in each drive span from R ticks after
/// the onset, whether path 1 has opened or not. If the span begins after the onset, the R ticks count from
/// its beginning.
pub fn spoiled_answers_open_path_2()
    ensures { (engine : EngineKind) → RecordsOpenPath2 (bench_of engine) }
{}

/// A send tick that is moved out of the answer window (docs/CONCEPT.md, "Faults"). It does nothing when it
/// runs.
///
/// Claim 82 (C99): Under `timing` with an `offset` outside the answer window, path 2 is open in each drive
/// span from R ticks after the onset, or after the span's beginning if that is later. By then a cutting
/// watch has found something, if the span lasts so long.
pub fn moved_answers_are_cut()
    ensures { (engine : EngineKind) → RecordsCutMoved (bench_of engine) }
{}

/// At which tick wrong answers are found (docs/CONCEPT.md, "Questions and answers"). Of the periods each is
/// judged right up to the last one whose send tick passed before a trip came, or before a fault spoiled the
/// answers, and each later one wrong. It does nothing when it runs.
///
/// Claim 83 (C50, C99): Without a fault, and under each listed fault but `timing` and `wild`, `answers` finds
/// in a drive span at the one tick that C99 gives, and at no other: the end of the period by which as many
/// periods with a wrong verdict are over as are enough to confirm.
pub fn wrong_answers_are_found_exactly()
    ensures { (engine : EngineKind) → RecordsFindAnswers (bench_of engine) }
{}

/// `wrong_answers_are_found_exactly` worked out for the history of `latest_cut_run`, with the reference
/// calibration, whose periods have 10 ticks, and by which 3 wrong verdicts confirm: the trip comes at tick
/// 16, after the send tick of period 1, so that the verdicts of periods 2 to 4 are wrong, and `answers` is
/// found at tick 49. It does nothing when it runs.
pub fn wrong_answers_run()
    ensures silent { silent_from (closed_setting reference_parts).fault (rows_of latest_cut) ≡ Some 16 }
    ensures wrong { wrong_from reference_parts.times 16 ≡ 2 }
    ensures confirm { feeds_to_confirm reference_parts.times.weights ≡ 3 }
    ensures found { map (λ m. m.found.answers) (reverse latest_cut)
        ≡ replicate 49 false ++ true ∷ false ∷ [] }
{}
