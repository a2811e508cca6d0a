// Runs on the bench that show what the usual ones don't, worked out from the definitions: answers that come
// before the window, two of them in one period, a signal that stays though it isn't 0, and a reading that is
// cut off. None of these functions does anything when it runs.
ghost use Rattle.std.specs.Prelude.{◌≡◌, [], ◌∷◌, map, replicate, Some, None};
ghost use Rattle.eg_answer.specs.declared.marks.AnswerMark.TheVariants.{Good};
ghost use Rattle.eg_answer.specs.declared.marks.Verdict.TheVariants.{Right, Wrong};
ghost use Rattle.eg_fault.specs.declared.class.Class.TheVariants.{Skip, Timing};
ghost use Rattle.eg_record.specs.declared.watch.Watch.TheVariants as found;
ghost use Rattle.eg_model.specs.Examples.{idle, full, fault_from, bench_run, report_on, reported, moments_in_time, answers_of, verdicts_of};
ghost use Rattle.eg_runs.specs.UnusualRuns.{overflowing_run};

/// Answers that are sent at tick 3 of their period come before the answer window: each of them is good, each
/// verdict is wrong, and path 2 cuts at tick 30.
pub fn early_answers_run()
    ensures report { report_on (bench_run idle (fault_from 0 (Timing 3)) 40)
        ≡ reported (Some (found.Answers, 29)) (Some 30) None None }
    ensures answers { answers_of (bench_run idle (fault_from 0 (Timing 3)) 30)
        ≡ (3, Good) ∷ (13, Good) ∷ (23, Good) ∷ [] }
    ensures verdicts { verdicts_of (bench_run idle (fault_from 0 (Timing 3)) 30)
        ≡ (9, Some Wrong) ∷ (19, Some Wrong) ∷ (29, Some Wrong) ∷ [] }
{}

/// Right after the answer of tick 5 the send tick moves to tick 7 of the period. So two answers come in the
/// first period, both good and both in the window, and its verdict is wrong; in the next period one comes.
pub fn two_answers_run()
    ensures answers { answers_of (bench_run idle (fault_from 6 (Timing 7)) 20)
        ≡ (5, Good) ∷ (7, Good) ∷ (17, Good) ∷ [] }
    ensures verdicts { verdicts_of (bench_run idle (fault_from 6 (Timing 7)) 20)
        ≡ (9, Some Wrong) ∷ (19, Some Right) ∷ [] }
{}

/// Module 3 doesn't run from tick 6 on: its signal stays at 500, as tick 5 left it, though the charge goes on
/// to rise.
pub fn signal_that_stays_run()
    ensures actual { map (λ m. m.signals.actual) (moments_in_time (bench_run full (fault_from 6 (Skip 3)) 10))
        ≡ 100 ∷ 100 ∷ 200 ∷ 300 ∷ 400 ∷ replicate 5 500 }
    ensures charge { map (λ m. m.entry.shown.load_1)
        (moments_in_time (bench_run full (fault_from 6 (Skip 3)) 10))
        ≡ 40 ∷ 40 ∷ 80 ∷ 120 ∷ 160 ∷ 200 ∷ 240 ∷ 280 ∷ 320 ∷ 360 ∷ [] }
{}

/// A pedal track that reads 65,535 too much where the pedal stands at 200 is cut off at 65,535, and level 1,
/// which gives half of it to the throttle, sees that.
pub fn reading_that_is_cut_off_run()
    ensures pedal { map (λ m. m.reads.pedal) (moments_in_time overflowing_run) ≡ (65535 ∷ 800 ∷ []) ∷ [] }
    ensures throttle { map (λ m. m.world.throttle) (moments_in_time overflowing_run) ≡ 32767 ∷ [] }
{}
