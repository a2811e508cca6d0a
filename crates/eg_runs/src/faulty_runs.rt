// Runs on the bench under a fault, worked out from the definitions. None of these functions does anything
// when it runs.
ghost use Rattle.std.specs.Prelude.{◌≡◌, true, false, [], ◌∷◌, ◌++◌, map, replicate, Some, None};
ghost use Rattle.eg_answer.specs.declared.marks.Verdict.TheVariants.{Right, Wrong};
ghost use Rattle.eg_fault.specs.declared.class.Class.TheVariants.{Script, Skip, Disturb, Flip, Timing, Path1Closed};
ghost use Rattle.eg_record.specs.declared.watch.Watch.TheVariants as found;
ghost use Rattle.eg_model.specs.Examples.{idle, full, fault_from, bench_run, raised_run, report_on, reported, moments_in_time, verdicts_of, stages_of};

/// Path 1 is held closed from the start: the torque is found and trips at tick 9, but path 1 conducts all the
/// same. After the trip no answer is sent, and path 2 cuts at tick 40.
pub fn path_1_closed_run()
    ensures report { report_on (bench_run full (fault_from 0 Path1Closed) 60)
        ≡ reported (Some (found.Torque, 9)) (Some 40) None (Some 9) }
    ensures verdicts { verdicts_of (bench_run full (fault_from 0 Path1Closed) 60)
        ≡ (9, Some Right) ∷ (19, Some Wrong) ∷ (29, Some Wrong) ∷ (39, Some Wrong) ∷ (49, Some Wrong)
        ∷ (59, Some Wrong) ∷ [] }
{}

/// Path 1 closes at tick 11, after it has cut at tick 10: the stages are on again until path 2 cuts at tick
/// 40.
pub fn path_1_closes_run()
    ensures report { report_on (bench_run full (fault_from 11 Path1Closed) 60)
        ≡ reported (Some (found.Torque, 9)) (Some 10) None (Some 9) }
    ensures stages { stages_of (bench_run full (fault_from 11 Path1Closed) 60)
        ≡ replicate 10 true ++ false ∷ replicate 29 true ++ replicate 20 false }
{}

/// The worst-case reaction is met: path 1 is closed, a raise of 10,000 permits all torque up to tick 11, the
/// excess is confirmed at tick 16, the stages are still on at tick 49, and they are off at tick 50, which
/// is 16 + 34.
pub fn reaction_is_met()
    ensures report { report_on raised_run
        ≡ reported (Some (found.Torque, 16)) (Some 50) None (Some 16) }
    ensures stages { stages_of raised_run ≡ replicate 50 true ++ replicate 10 false }
{}

/// Two runs: module 2 of level 2 is disturbed from tick 12 on, and from tick 16 on, right after an answer. No
/// answer is good any more, and path 2 cuts at tick 40 in the first run, and at tick 50, which is 16 + 34, in
/// the second. There `answers` is found at tick 49, the last tick at which it may be.
pub fn disturbed_run()
    ensures before_sending { report_on (bench_run idle (fault_from 12 (Disturb 2 4096)) 60)
        ≡ reported (Some (found.Answers, 39)) (Some 40) None None }
    ensures after_sending { report_on (bench_run idle (fault_from 16 (Disturb 2 4096)) 60)
        ≡ reported (Some (found.Answers, 49)) (Some 50) None None }
{}

/// A bit of word 3 is flipped at tick 7: `mirror` is found at that tick, and the stages are off at tick 8.
pub fn flipped_run()
    ensures { report_on (bench_run idle (fault_from 7 (Flip 3 1)) 20)
        ≡ reported (Some (found.Mirror, 7)) (Some 8) None None }
{}

/// The first load track reads 0: the pair disagrees from tick 2 on, and `load` is found at tick 6.
pub fn lost_load_run()
    ensures report { report_on (bench_run full (fault_from 0 (Script 4 (0 ∷ []))) 20)
        ≡ reported (Some (found.Load, 6)) (Some 7) None None }
    ensures pairs { map (λ m. m.signals.pairs)
        (moments_in_time (bench_run full (fault_from 0 (Script 4 (0 ∷ []))) 7))
        ≡ 0 ∷ 0 ∷ 4 ∷ 4 ∷ 4 ∷ 4 ∷ 4 ∷ [] }
{}

/// The first pedal track reads 1000 where the pedal is at rest: the lower value counts, and 200 is
/// permitted throughout.
pub fn raised_pedal_run()
    ensures report { report_on (bench_run idle (fault_from 0 (Script 0 (1000 ∷ []))) 30)
        ≡ reported (Some (found.Pedal, 4)) None None None }
    ensures permitted { map (λ m. m.signals.permitted)
        (moments_in_time (bench_run idle (fault_from 0 (Script 0 (1000 ∷ []))) 30)) ≡ replicate 30 200 }
{}

/// Module 3 never runs: the actual torque stays 0, no answer is good, and path 2 cuts at tick 30.
pub fn skipped_run()
    ensures report { report_on (bench_run full (fault_from 0 (Skip 3)) 60)
        ≡ reported (Some (found.Answers, 29)) (Some 30) None (Some 9) }
    ensures actual { map (λ m. m.signals.actual) (moments_in_time (bench_run full (fault_from 0 (Skip 3)) 60))
        ≡ replicate 60 0 }
{}

/// Answers that are sent at tick 8 of their period come too late; those at tick 7 come in time.
pub fn moved_answers_run()
    ensures late { report_on (bench_run idle (fault_from 0 (Timing 8)) 40)
        ≡ reported (Some (found.Answers, 29)) (Some 30) None None }
    ensures in_time { report_on (bench_run idle (fault_from 0 (Timing 7)) 40)
        ≡ reported None None None None }
{}
