// Runs under faults that aren't found, worked out from the definitions. None of these functions does anything
// when it runs.
ghost use Rattle.std.specs.Prelude.{◌≡◌, negsuc, [], ◌∷◌, ◌++◌, replicate, Some, None};
ghost use Rattle.eg_num.specs.Drive.{driven};
ghost use Rattle.eg_fault.specs.declared.class.Class.TheVariants.{Script, Offset, Skip, Timing};
ghost use Rattle.eg_record.specs.declared.watch.Watch.TheVariants as found;
ghost use Rattle.eg_model.specs.Examples.{idle, fault_from, run_of, bench_run, report_on, reported};
ghost use Rattle.eg_runs.specs.PowerCycles.{cycle};

/// An offset beyond the tolerance isn't found while it is cut off (docs/CONCEPT.md, "Faults"): the first
/// pedal track reads 200 too little, and the pedal stands at 0. Where the pedal stands at 200 it is found
/// at once.
pub fn offset_that_is_cut_off()
    ensures hidden { report_on (bench_run idle (fault_from 0 (Offset 0 (negsuc 199))) 40)
        ≡ reported None None None None }
    ensures shown { report_on (run_of idle (fault_from 0 (Offset 0 (negsuc 199)))
        (replicate 10 (driven 200 800 0))) ≡ reported (Some (found.Pedal, 4)) None None None }
{}

/// A pair that is apart at one tick in three isn't found (docs/CONCEPT.md, "Level 2"): a tick at which it
/// disagrees adds 2, and each of the other two takes 1. At two ticks in three it is found at tick 7.
pub fn pair_that_is_seldom_apart()
    ensures hidden { report_on (bench_run idle (fault_from 0 (Script 0 (1000 ∷ 0 ∷ 0 ∷ []))) 45)
        ≡ reported None None None None }
    ensures shown { report_on (bench_run idle (fault_from 0 (Script 0 (1000 ∷ 1000 ∷ 0 ∷ []))) 15)
        ≡ reported (Some (found.Pedal, 7)) None None None }
{}

/// A module that doesn't run isn't found in drive spans that are shorter than N question periods
/// (docs/CONCEPT.md, "Why the unit reacts"): a test takes 31 ticks, and each drive span ends before a third
/// wrong verdict. One tick more, and wrong answers are found.
pub fn skips_in_short_spans()
    ensures hidden { report_on (run_of idle (fault_from 0 (Skip 3)) (cycle 60 ++ cycle 60))
        ≡ reported None None None None }
    ensures shown { report_on (run_of idle (fault_from 0 (Skip 3)) (cycle 61))
        ≡ reported (Some (found.Answers, 60)) None None None }
{}

/// A send tick that is moved within the window isn't found (docs/CONCEPT.md, "Questions and answers"), and
/// here not even where two answers come in the period in which it is moved: one wrong verdict isn't enough.
pub fn send_tick_that_is_moved()
    ensures { report_on (bench_run idle (fault_from 6 (Timing 7)) 45) ≡ reported None None None None }
{}
