// Runs on the bench under a fault, worked out from the definitions. None of these functions does anything
// when it runs.
ghost use Rattle.std.specs.Prelude.{◌≡◌, true, false, [], ◌∷◌, ◌++◌, map, replicate, Some, None};
ghost use Rattle.eg_answer.specs.declared.marks.AnswerMark.TheVariants.{Good, Bad};
ghost use Rattle.eg_answer.specs.declared.marks.Verdict.TheVariants.{Right, Wrong};
ghost use Rattle.eg_fault.specs.declared.class.Class.TheVariants.{Plate, Skip, Halt, Wild, Path1Closed, Path2Closed, PathOpen, Lapse};
ghost use Rattle.eg_record.specs.declared.watch.Watch.TheVariants as found;
ghost use Rattle.eg_model.specs.Rows.{signal_list};
ghost use Rattle.eg_model.specs.Examples.{idle, full, at_rest, resetting, fault_from, bench_run, tested_run, pressed_run, offset_run, disturbed_raise_run, flipped_probe_run, report_on, reported, moments_in_time, answers_of, verdicts_of, stages_of};

/// Two faults of path 2. Where it is held closed, it conducts whatever its latch says. Where it doesn't
/// conduct, the stages are off, and no watch is found.
pub fn path_2_runs()
    ensures closed { map (λ m. m.path2) (moments_in_time (bench_run full (fault_from 0 Path2Closed) 45))
        ≡ replicate 45 true }
    ensures opened { stages_of (bench_run idle (fault_from 3 (PathOpen 2)) 6)
        ≡ replicate 3 true ++ replicate 3 false }
    ensures unnamed { report_on (bench_run idle (fault_from 3 (PathOpen 2)) 6)
        ≡ reported None (Some 3) None None }
{}

/// At the tick at which a word is flipped, module 0 of level 2 has set the signals to 0 before slice 1 of
/// level 1 reads them.
pub fn flip_seen_by_level_1()
    ensures { map (λ m. m.world.throttle) (moments_in_time flipped_probe_run) ≡ 0 ∷ 65436 ∷ [] }
{}

/// The first pedal track reads 1000 where the pedal stands at 500: the watch `pedal` is found at tick 4, and
/// from tick 5 on level 2 takes the pedal as 0.
pub fn limited_run()
    ensures found { report_on pressed_run ≡ reported (Some (found.Pedal, 4)) None None None }
    ensures permitted { map (λ m. m.signals.permitted) (moments_in_time pressed_run)
        ≡ replicate 5 1000 ++ replicate 5 200 }
{}

/// React doesn't run from tick 10 on, right after it has ordered path 1 open: the path stays open.
pub fn latched_run()
    ensures { stages_of (bench_run full (fault_from 10 (Skip 7)) 15)
        ≡ replicate 10 true ++ replicate 5 false }
{}

/// Two faults. Where neither level runs, level 1's outputs stay 0. A plate that is held stays where it is
/// held, and the charge follows it from the next tick on.
pub fn halted_and_held_runs()
    ensures halted { map (λ m. m.world.throttle)
        (moments_in_time (bench_run full (fault_from 0 Halt) 2)) ≡ 0 ∷ 0 ∷ [] }
    ensures held { map (λ m. m.entry.shown.position)
        (moments_in_time (bench_run idle (fault_from 2 (Plate 300)) 5))
        ≡ 0 ∷ 0 ∷ 300 ∷ 300 ∷ 300 ∷ [] }
    ensures charge { map (λ m. m.entry.shown.load_1)
        (moments_in_time (bench_run idle (fault_from 2 (Plate 300)) 5))
        ≡ 40 ∷ 40 ∷ 40 ∷ 80 ∷ 120 ∷ [] }
{}

/// A wild monitoring module gives no verdicts, and level 2 cuts all the same; it opens path 2 where its
/// list says so, and no watch finds that.
pub fn wild_run()
    ensures report { report_on (bench_run full (fault_from 0 (Wild (65535 ∷ []) (false ∷ []))) 20)
        ≡ reported (Some (found.Torque, 9)) (Some 10) None (Some 9) }
    ensures verdicts { verdicts_of (bench_run full (fault_from 0 (Wild (65535 ∷ []) (false ∷ []))) 20) ≡ [] }
    ensures opens { stages_of (bench_run idle (fault_from 3 (Wild (0 ∷ []) (false ∷ true ∷ []))) 6)
        ≡ replicate 5 true ++ false ∷ [] }
    ensures unnamed { report_on (bench_run idle (fault_from 3 (Wild (0 ∷ []) (false ∷ true ∷ []))) 6)
        ≡ reported None (Some 5) None None }
{}

/// Level 2 misses tick 3: one answer is bad, and those after it are good again.
pub fn lapsed_run()
    ensures report { report_on (bench_run idle (fault_from 3 (Lapse (0 ∷ []) 0)) 30)
        ≡ reported None None None None }
    ensures answers { answers_of (bench_run idle (fault_from 3 (Lapse (0 ∷ []) 0)) 30)
        ≡ (5, Bad) ∷ (15, Good) ∷ (25, Good) ∷ [] }
    ensures verdicts { verdicts_of (bench_run idle (fault_from 3 (Lapse (0 ∷ []) 0)) 30)
        ≡ (9, Some Wrong) ∷ (19, Some Right) ∷ (29, Some Right) ∷ [] }
{}

/// A pedal track that reads 100 less where the pedal stands at 50 reads 0; the other track is sound.
pub fn offset_track()
    ensures { map (λ m. m.reads.pedal) (moments_in_time offset_run) ≡ (0 ∷ 950 ∷ []) ∷ [] }
{}

/// A raise of 600 is disturbed on its way, its check word isn't: for level 2 the raise counts as 0, so that
/// it permits 200, while the drive row itself permits 600.
pub fn disturbed_raise()
    ensures limit { map (λ m. m.limit) (moments_in_time disturbed_raise_run) ≡ 600 ∷ [] }
    ensures signals { map (λ m. signal_list m.signals) (moments_in_time disturbed_raise_run)
        ≡ (0 ∷ 200 ∷ 100 ∷ 0 ∷ 0 ∷ []) ∷ [] }
{}

/// Path 1 conducts whatever its latch says: the test of the paths fails at tick 10, and the stages stay off.
pub fn failed_test()
    ensures { stages_of (tested_run idle (fault_from 0 Path1Closed) (resetting ∷ replicate 13 at_rest))
        ≡ replicate 14 false }
{}
