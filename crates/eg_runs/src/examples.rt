// Runs on the bench without a fault, worked out from the definitions. None of these functions does anything
// when it runs.
ghost use Rattle.std.specs.Prelude.{◌≡◌, true, false, [], ◌∷◌, ◌++◌, map, replicate, take, drop, Some, None, codes};
ghost use Rattle.eg_answer.specs.declared.marks.AnswerMark.TheVariants.{Good};
ghost use Rattle.eg_answer.specs.declared.marks.Verdict.TheVariants.{Right, Wrong};
ghost use Rattle.eg_fault.specs.declared.class.Class.TheVariants.{Path1Closed};
ghost use Rattle.eg_record.specs.declared.watch.Watch.TheVariants as found;
ghost use Rattle.eg_word.specs.declared.registers.Trap.TheVariants as trapped;
ghost use Rattle.eg_record.specs.Texts.{report_end};
ghost use Rattle.eg_model.specs.Examples.{idle, full, storing, fault_from, bench_run, follow_run, looping_run, report_on, reported, moments_in_time, rows_in_time, answers_of, verdicts_of, stages_of};

/// Level 1 at full throttle, tick by tick: the stages, and the answers and verdicts of 40 ticks. After the
/// trip no answer is sent, so wrong answers are found at tick 39.
pub fn full_run_in_detail()
    ensures stages { stages_of (bench_run full None 12) ≡ replicate 10 true ++ false ∷ false ∷ [] }
    ensures answers { answers_of (bench_run full None 40) ≡ (5, Good) ∷ [] }
    ensures verdicts { verdicts_of (bench_run full None 40)
        ≡ (9, Some Right) ∷ (19, Some Wrong) ∷ (29, Some Wrong) ∷ (39, Some Wrong) ∷ [] }
    ensures found { map (λ m. m.found.answers) (moments_in_time (bench_run full None 50))
        ≡ replicate 39 false ++ true ∷ replicate 10 false }
{}

/// Level 1 waits for ever: nothing is found in 60 ticks, and in the first 40 each answer is good and each
/// verdict right.
pub fn idle_run()
    ensures report { report_on (bench_run idle None 60) ≡ reported None None None None }
    ensures answers { answers_of (bench_run idle None 40)
        ≡ (5, Good) ∷ (15, Good) ∷ (25, Good) ∷ (35, Good) ∷ [] }
    ensures verdicts { verdicts_of (bench_run idle None 40)
        ≡ (9, Some Right) ∷ (19, Some Right) ∷ (29, Some Right) ∷ (39, Some Right) ∷ [] }
{}

/// Three runs of 60 ticks, and the last line of their report.
pub fn three_runs()
    ensures { report_end (map report_on
        (bench_run idle None 60 ∷ bench_run full None 60 ∷ bench_run full (fault_from 0 Path1Closed) 60 ∷ []))
        ≡ codes "runs 3; detected 2; off 2\n" }
{}

/// The pedal is pressed and let go: the charge follows, and there is an excess at ticks 25 and 26 alone,
/// too short to be confirmed.
pub fn following_run()
    ensures report { report_on follow_run ≡ reported None None None None }
    ensures excess { map (λ m. m.signals.excess) (moments_in_time follow_run)
        ≡ replicate 25 0 ++ 1 ∷ 1 ∷ replicate 13 0 }
    ensures charge { take 19 (drop 10 (map (λ m. m.entry.shown.load_1) (moments_in_time follow_run)))
        ≡ replicate 17 170 ++ 130 ∷ 90 ∷ [] }
{}

/// A store to the word of a signal is refused, and traps: every row is as if level 1 had waited.
pub fn refused_store()
    ensures report { report_on (bench_run storing None 30)
        ≡ reported None None (Some (trapped.Store, 0)) None }
    ensures rows { rows_in_time (bench_run storing None 30) ≡ rows_in_time (bench_run idle None 30) }
{}

/// An empty image runs off the end of the code at tick 1: level 1 does 900 words in tick 0, and 124 in tick
/// 1.
pub fn empty_image()
    ensures { report_on (bench_run [] None 30)
        ≡ reported None None (Some (trapped.Fetch, 1)) None }
{}

/// A jump to itself, a thousand times a tick, disturbs nothing.
pub fn looping_image()
    ensures { report_on looping_run ≡ reported None None None None }
{}
