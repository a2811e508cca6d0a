// Runs on the bench without a fault, worked out from the definitions. None of these functions does anything
// when it runs.
ghost use Rattle.std.specs.Prelude.{◌≡◌, true, false, [], ◌∷◌, ◌++◌, map, replicate, Some, None};
ghost use Rattle.eg_record.specs.declared.watch.Watch.TheVariants as found;
ghost use Rattle.eg_model.specs.Examples.{idle, full, at_rest, resetting, bench_run, tested_run, stages_of, probe_row, probe_run, alternating_run, raise_run, report_on, reported, moments_in_time, rows_in_time};

/// Level 1 at full throttle, for 20 ticks: the torque is found at tick 9, where the excess is confirmed,
/// and the stages go off at tick 10. From that tick on the signals are 0, as the permitted torque is. The
/// plate rises from tick 1 on, and falls from tick 10 on; the charge follows the plate of the tick before.
pub fn full_run()
    ensures report { report_on (bench_run full None 20)
        ≡ reported (Some (found.Torque, 9)) (Some 10) None (Some 9) }
    ensures permitted { map (λ m. m.signals.permitted) (moments_in_time (bench_run full None 20))
        ≡ replicate 10 200 ++ replicate 10 0 }
    ensures plate { map (λ m. m.entry.shown.position) (moments_in_time (bench_run full None 13))
        ≡ 0 ∷ 50 ∷ 100 ∷ 150 ∷ 200 ∷ 250 ∷ 300 ∷ 350 ∷ 400 ∷ 450 ∷ 400 ∷ 350 ∷ 300 ∷ [] }
    ensures charge { map (λ m. m.entry.shown.load_1) (moments_in_time (bench_run full None 13))
        ≡ 40 ∷ 40 ∷ 80 ∷ 120 ∷ 160 ∷ 200 ∷ 240 ∷ 280 ∷ 320 ∷ 360 ∷ 400 ∷ 440 ∷ 431 ∷ [] }
{}

/// The rows of a slice plan come in turn: level 1 does nothing in the first tick, and sets its outputs in
/// the second.
pub fn alternating_slices()
    ensures { map (λ m. m.world.throttle) (moments_in_time alternating_run) ≡ 0 ∷ 1000 ∷ [] }
{}

/// The ports stand in their order: the raise is the ninth.
pub fn raise_is_read()
    ensures { map (λ m. m.world.throttle) (moments_in_time raise_run) ≡ 7 ∷ [] }
{}

/// In slices 3 and 4 level 1 reads the actual torque before and after its module has run, and gives the
/// difference to the throttle: the four rows of the record.
pub fn probing_run()
    ensures { rows_in_time probe_run
        ≡ probe_row 0 0 40 100 100 ∷ probe_row 1 50 40 100 0
        ∷ probe_row 2 0 80 200 100 ∷ probe_row 3 50 40 100 65436 ∷ [] }
{}

/// The first row resets the unit, and a test of the paths takes ten ticks: it is passed at tick 10, and the
/// stages are on from tick 11.
pub fn passed_test()
    ensures { stages_of (tested_run idle None (resetting ∷ replicate 13 at_rest))
        ≡ replicate 11 false ++ replicate 3 true }
{}
