// Runs of a diesel engine, worked out from the definitions. None of these functions does anything when it
// runs.
ghost use Rattle.std.specs.Prelude.{◌≡◌, [], ◌∷◌, ◌++◌, replicate, Some, None};
ghost use Rattle.eg_fault.specs.declared.class.Class.TheVariants.{Script, Plate};
ghost use Rattle.eg_record.specs.declared.watch.Watch.TheVariants as found;
ghost use Rattle.eg_model.specs.Examples.{idle, full, fault_from, bench_run, tested_run, reported};
ghost use Rattle.eg_runs.specs.DieselRuns.{diesel_report, racks, quantities, torques, reset_at_6};

/// Level 1 at full throttle, for 20 ticks: the boost follows the rack a tick later, and no more is injected
/// than burns in it, 40 at first. At tick 4 the 196 that are injected give a torque of 490, which is more
/// than the 400 that level 2 lets pass. So the excess is confirmed at tick 8, and the stages go off at
/// tick 9.
pub fn diesel_at_full_throttle()
    ensures report { diesel_report (bench_run full None 20)
        ≡ reported (Some (found.Torque, 8)) (Some 9) None (Some 8) }
    ensures racks { racks (bench_run full None 11)
        ≡ 0 ∷ 50 ∷ 100 ∷ 150 ∷ 200 ∷ 250 ∷ 300 ∷ 350 ∷ 400 ∷ 350 ∷ 300 ∷ [] }
    ensures quantities { quantities (bench_run full None 11)
        ≡ 0 ∷ 40 ∷ 92 ∷ 144 ∷ 196 ∷ 248 ∷ 300 ∷ 335 ∷ 370 ∷ 0 ∷ 0 ∷ [] }
    ensures torques { torques (bench_run full None 11)
        ≡ 0 ∷ 100 ∷ 230 ∷ 360 ∷ 490 ∷ 620 ∷ 750 ∷ 837 ∷ 925 ∷ 0 ∷ 0 ∷ [] }
{}

/// The first load track reads 0 all along: the loads disagree from tick 2 on, where the second reads 92, and
/// that is confirmed at tick 6.
pub fn diesel_that_loses_a_load_track()
    ensures { diesel_report (bench_run full (fault_from 0 (Script 4 (0 ∷ []))) 20)
        ≡ reported (Some (found.Load, 6)) (Some 7) None None }
{}

/// A rack that a fault holds stands there, whatever is commanded, while the boost follows the rack and lets
/// more and more burn. Nothing ignites the fuel: level 1 waits, and there is no torque.
pub fn diesel_with_a_held_rack()
    ensures racks { racks (bench_run idle (fault_from 2 (Plate 300)) 7)
        ≡ 0 ∷ 0 ∷ 300 ∷ 300 ∷ 300 ∷ 300 ∷ 300 ∷ [] }
    ensures quantities { quantities (bench_run idle (fault_from 2 (Plate 300)) 7)
        ≡ 0 ∷ 0 ∷ 40 ∷ 92 ∷ 144 ∷ 196 ∷ 248 ∷ [] }
    ensures torques { torques (bench_run idle (fault_from 2 (Plate 300)) 7) ≡ replicate 7 0 }
{}

/// Rack and boost go on across a reset, at which nothing is injected any more, and over the test of the
/// paths: at tick 17, the first at which the stages are on again, the boost is still that of a rack at 300.
pub fn diesel_across_a_reset()
    ensures racks { racks (tested_run idle (fault_from 0 (Plate 300)) reset_at_6) ≡ replicate 19 300 }
    ensures quantities { quantities (tested_run idle (fault_from 0 (Plate 300)) reset_at_6)
        ≡ 40 ∷ 92 ∷ 144 ∷ 196 ∷ 248 ∷ 300 ∷ (replicate 11 0 ++ 300 ∷ 300 ∷ []) }
    ensures falling { racks (tested_run full None reset_at_6)
        ≡ 0 ∷ 50 ∷ 100 ∷ 150 ∷ 200 ∷ 250 ∷ 200 ∷ 150 ∷ 100 ∷ 50 ∷ (replicate 7 0 ++ 0 ∷ 50 ∷ []) }
{}
