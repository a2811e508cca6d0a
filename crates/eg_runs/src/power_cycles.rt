// Runs with several power cycles, worked out from the definitions. None of these functions does anything
// when it runs. The numbers of ticks are those of the run.
ghost use Rattle.std.specs.Prelude.{◌≡◌, true, false, not, [], ◌∷◌, ◌++◌, map, replicate, Some, None};
ghost use Rattle.eg_answer.specs.declared.marks.AnswerMark.TheVariants.{Good, Bad};
ghost use Rattle.eg_answer.specs.declared.marks.Verdict.TheVariants.{Wrong};
ghost use Rattle.eg_fault.specs.declared.class.Class.TheVariants.{Script, Skip, Flip, Halt, Timing, Wild, Path1Closed, PathOpen, Lapse};
ghost use Rattle.eg_record.specs.Excess.{true_excess};
ghost use Rattle.eg_record.specs.declared.watch.Watch.TheVariants as found;
ghost use Rattle.eg_word.specs.declared.registers.Trap.TheVariants as trapped;
ghost use Rattle.eg_model.specs.Examples.{idle, full, fault_from, run_of, tested_run, report_on, reported, moments_in_time, verdicts_of, stages_of};
ghost use Rattle.eg_runs.specs.PowerCycles.{cycle, rest, trapping_run, excess_goes_on, ticks_where, sent_in, traps_of, short_report};

/// A reset at tick 0, and nothing is out of order: both paths conduct but at tick 30, at which they are read
/// back. The verdicts of the test are wrong. From tick 31 on the stages are on, and the first answer is sent
/// at tick 36.
pub fn test_that_passes()
    ensures report { report_on (run_of idle None (cycle 40)) ≡ reported None None None None }
    ensures path1 { map (λ m. m.path1) (moments_in_time (run_of idle None (cycle 40)))
        ≡ replicate 30 true ++ false ∷ replicate 9 true }
    ensures path2 { map (λ m. m.path2) (moments_in_time (run_of idle None (cycle 40)))
        ≡ replicate 30 true ++ false ∷ replicate 9 true }
    ensures stages { stages_of (run_of idle None (cycle 40)) ≡ replicate 31 false ++ replicate 9 true }
    ensures verdicts { verdicts_of (run_of idle None (cycle 40))
        ≡ (9, Some Wrong) ∷ (19, Some Wrong) ∷ (29, Some Wrong) ∷ [] }
    ensures answers { sent_in (run_of idle None (cycle 40)) ≡ (36, Good) ∷ [] }
{}

/// Path 1 conducts whatever its latch says: the test fails at tick 30, and the stages are told to be off from
/// the tick after it.
pub fn test_that_fails()
    ensures { report_on (run_of idle (fault_from 0 Path1Closed) (cycle 40))
        ≡ reported (Some (found.Start, 30)) (Some 31) None None }
{}

/// Full throttle with a reset at tick 20: the torque is found in each drive span, nine ticks after its begin.
pub fn full_run_with_a_reset()
    ensures report { report_on (run_of full None (rest 20 ++ cycle 50))
        ≡ reported (Some (found.Torque, 9)) (Some 10) None (Some 9) }
    ensures stages { stages_of (run_of full None (rest 20 ++ cycle 50))
        ≡ replicate 10 true ++ replicate 41 false ++ replicate 10 true ++ replicate 9 false }
    ensures found { ticks_where (λ row. row.found.torque) (run_of full None (rest 20 ++ cycle 50))
        ≡ 9 ∷ 60 ∷ [] }
{}

/// A reset while a test runs begins it anew. The report tells nothing of it.
pub fn test_that_is_begun_anew()
    ensures report { report_on (run_of idle None (cycle 20 ++ cycle 40)) ≡ reported None None None None }
    ensures stages { stages_of (run_of idle None (cycle 20 ++ cycle 40))
        ≡ replicate 51 false ++ replicate 9 true }
{}

/// Tests that take ten ticks, and a reset while the first runs, right after it was passed, and at the very
/// tick at which it would be.
pub fn resets_near_a_test()
    ensures during { ticks_where (λ row. row.on) (tested_run idle None (cycle 4 ++ cycle 13))
        ≡ 15 ∷ 16 ∷ [] }
    ensures begins { ticks_where (λ row. row.fresh) (tested_run idle None (cycle 4 ++ cycle 13))
        ≡ 0 ∷ 4 ∷ 15 ∷ [] }
    ensures after { ticks_where (λ row. not row.testing) (tested_run idle None (cycle 11 ++ cycle 13))
        ≡ 22 ∷ 23 ∷ [] }
    ensures after_begins { ticks_where (λ row. row.fresh) (tested_run idle None (cycle 11 ++ cycle 13))
        ≡ 0 ∷ 11 ∷ 22 ∷ [] }
    ensures at_end { ticks_where (λ row. row.fresh) (tested_run idle None (cycle 10 ++ cycle 13))
        ≡ 0 ∷ 10 ∷ 21 ∷ [] }
    ensures at_end_path1 { ticks_where (λ row. not row.path1) (tested_run idle None (cycle 10 ++ cycle 13))
        ≡ 20 ∷ [] }
{}

/// A test that the run's end cuts: nothing is found, and no tick counts as one with the stages off.
pub fn test_that_is_cut()
    ensures { report_on (tested_run idle None (cycle 10)) ≡ short_report None None None None }
{}

/// A path that never conducts lets the test pass, and keeps the stages off after it. Where both levels halt,
/// where the monitoring module is wild and orders nothing, or where react doesn't run, a path still conducts
/// at the tick at which both are read back, and the test fails.
pub fn tests_under_faults()
    ensures opened { report_on (tested_run idle (fault_from 0 (PathOpen 1)) (cycle 13))
        ≡ short_report None (Some 11) None None }
    ensures halted { report_on (tested_run idle (fault_from 0 Halt) (cycle 13))
        ≡ short_report (Some (found.Start, 10)) (Some 11) None None }
    ensures wild { report_on (tested_run idle (fault_from 0 (Wild (65535 ∷ []) (false ∷ []))) (cycle 13))
        ≡ short_report (Some (found.Start, 10)) (Some 11) None None }
    ensures skipped { report_on (tested_run idle (fault_from 0 (Skip 7)) (cycle 13))
        ≡ short_report (Some (found.Start, 10)) (Some 11) None None }
{}

/// A word is flipped at tick 3 of a test: that is found, and opens path 1 early. The test is passed, and the
/// drive span begins with no latch open.
pub fn flip_in_a_test()
    ensures report { report_on (tested_run idle (fault_from 3 (Flip 3 1)) (cycle 13))
        ≡ short_report (Some (found.Mirror, 3)) None None None }
    ensures path1 { map (λ m. m.path1)
        (moments_in_time (tested_run idle (fault_from 3 (Flip 3 1)) (cycle 13)))
        ≡ replicate 4 true ++ replicate 7 false ++ replicate 2 true }
{}

/// Level 1 traps at tick 1, and is as new after the reset at tick 3: it traps again at tick 4. The report
/// tells the first.
pub fn two_traps()
    ensures report { report_on trapping_run ≡ reported None None (Some (trapped.Store, 1)) None }
    ensures traps { traps_of trapping_run ≡ false ∷ true ∷ true ∷ false ∷ true ∷ true ∷ [] }
{}

/// A fault counts the ticks of the run, also past a reset: a script goes on where it was, answers are sent
/// at the moved tick of the new span's periods, level 2 is left out 14 ticks after the onset, and react still
/// doesn't run.
pub fn faults_go_on()
    ensures script { map (λ m. m.reads.pedal)
        (moments_in_time (tested_run idle (fault_from 1 (Script 0 (1 ∷ 2 ∷ 3 ∷ []))) (rest 2 ++ cycle 3)))
        ≡ (0 ∷ 1000 ∷ []) ∷ (1 ∷ 1000 ∷ []) ∷ (2 ∷ 1000 ∷ []) ∷ (3 ∷ 1000 ∷ []) ∷ (1 ∷ 1000 ∷ []) ∷ [] }
    ensures moved { sent_in (tested_run idle (fault_from 0 (Timing 7)) (rest 3 ++ cycle 19))
        ≡ (21, Good) ∷ [] }
    ensures left_out { sent_in (tested_run idle (fault_from 1 (Lapse (14 ∷ []) 0)) (rest 3 ++ cycle 19))
        ≡ (19, Bad) ∷ [] }
    ensures skipped { report_on (tested_run idle (fault_from 1 (Skip 7)) (rest 2 ++ cycle 12))
        ≡ short_report (Some (found.Start, 12)) (Some 13) None None }
{}

/// There is true excess at the last three ticks before the reset at tick 7, and again from the second tick of
/// the drive span at tick 18 on. Neither level 2 nor the report goes on counting from the three: level 2
/// finds the torque at the fifth tick of the span, and the true excess isn't confirmed.
pub fn excess_over_two_cycles()
    ensures excess { ticks_where (true_excess 200) excess_goes_on
        ≡ 4 ∷ 5 ∷ 6 ∷ 19 ∷ 20 ∷ 21 ∷ 22 ∷ [] }
    ensures report { report_on excess_goes_on ≡ short_report (Some (found.Torque, 22)) (Some 23) None None }
{}
