// The greatest throttle that never cuts, worked out from the definitions.
ghost use Rattle.std.specs.Prelude.{◌≡◌, [], ◌∷◌, replicate, Some, None};
ghost use Rattle.eg_num.specs.Drive.{driven};
ghost use Rattle.eg_plant.specs.declared.engine_kind.EngineKind.TheVariants.{Gasoline, Diesel};
ghost use Rattle.eg_values.specs.Reference.{reference_parts};
ghost use Rattle.eg_record.specs.declared.watch.Watch.TheVariants as found;
ghost use Rattle.eg_model.specs.Examples.{run_of, report_on, reported};
ghost use Rattle.eg_laws.specs.NeverCuts.{IsPermittedUpTo};
ghost use Rattle.eg_runs.specs.DieselRuns.{diesel_report};
ghost use Rattle.eg_runs.specs.Throttles.{throttle_of};

/// By the reference calibration a throttle of 31 or below never cuts the gasoline engine (docs/CONCEPT.md,
/// "Torque"), and one of 32 does, with the pedal at rest at 6,000 rpm. It does nothing when it runs.
pub fn greatest_throttle_that_never_cuts()
    ensures within { IsPermittedUpTo Gasoline reference_parts 31 }
    ensures beyond { ¬ IsPermittedUpTo Gasoline reference_parts 32 }
    ensures uncut { report_on (run_of (throttle_of 31) None (replicate 30 (driven 0 6000 0)))
        ≡ reported None None None None }
    ensures cut { report_on (run_of (throttle_of 32) None (replicate 15 (driven 0 6000 0)))
        ≡ reported (Some (found.Torque, 7)) (Some 8) None None }
{}

/// By the reference calibration a throttle of 80 or below never cuts the diesel engine (docs/CONCEPT.md,
/// "Torque"), and one of 81 does, with the pedal at rest at 6,000 rpm. It does nothing when it runs.
pub fn greatest_throttle_of_a_diesel()
    ensures within { IsPermittedUpTo Diesel reference_parts 80 }
    ensures beyond { ¬ IsPermittedUpTo Diesel reference_parts 81 }
    ensures uncut { diesel_report (run_of (throttle_of 80) None (replicate 30 (driven 0 6000 0)))
        ≡ reported None None None None }
    ensures cut { diesel_report (run_of (throttle_of 81) None (replicate 15 (driven 0 6000 0)))
        ≡ reported (Some (found.Torque, 6)) (Some 7) None None }
{}
