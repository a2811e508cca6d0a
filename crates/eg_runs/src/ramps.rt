// Runs with a ramp, worked out from the definitions.
ghost use Rattle.std.specs.Prelude.{◌≡◌, true, false, ◌∷◌, ◌++◌, map, replicate, Some, None};
ghost use Rattle.eg_values.specs.Excess.{ramp_ticks};
ghost use Rattle.eg_record.specs.declared.watch.Watch.TheVariants.{Torque};
ghost use Rattle.eg_model.specs.Examples.{idle, follow, run_of, moments_in_time, rows_in_time, report_on, reported};
ghost use Rattle.eg_laws.specs.Examples.{ramped_parts};
ghost use Rattle.eg_laws.specs.Ramps.{is_on_ramp};
ghost use Rattle.eg_runs.specs.Ramps.{ramped_run, let_go, down_the_ramp, steepest};

/// The pedal stands half down at ticks 0 to 9, and then at rest (docs/CONCEPT.md, "Torque"): the demand is
/// 100.0 Nm, and then 20.0. With a ramp of 5.0 Nm a tick the permitted torque comes down from 95.0 at tick 10
/// to 25.0 at tick 24, and level 2's with it. It does nothing when it runs.
pub fn permitted_torque_comes_down()
    ensures demand { map (λ m. m.limit) (moments_in_time (run_of idle None let_go))
        ≡ replicate 10 1000 ++ replicate 25 200 }
    ensures limits { map (λ m. m.limit) (moments_in_time (ramped_run idle None let_go))
        ≡ replicate 10 1000 ++ (down_the_ramp ++ replicate 10 200) }
    ensures signals { map (λ m. m.signals.permitted) (moments_in_time (ramped_run idle None let_go))
        ≡ replicate 10 1000 ++ (down_the_ramp ++ replicate 10 200) }
{}

/// The longest ramp (docs/CONCEPT.md, "Torque"): from the permit table's greatest number, 240.0 Nm, to its
/// least, 0, a ramp of 5.0 Nm a tick takes 48 ticks, and the permitted torque lies above the demand at 47.
/// It does nothing when it runs.
pub fn longest_ramp()
    ensures ticks { ramp_ticks ramped_parts.rules ≡ Some 48 }
    ensures above { map (is_on_ramp ramped_parts) (rows_in_time (ramped_run idle None steepest))
        ≡ false ∷ replicate 47 true ++ replicate 2 false }
{}

/// As the pedal of `permitted_torque_comes_down` is let go the engine follows it, but its torque falls
/// more slowly than the demand: without a ramp that is an excess, and the stages go off at tick 15. With
/// the ramp there is none. It does nothing when it runs.
pub fn ramp_keeps_the_stages_on()
    ensures cut { report_on (run_of follow None let_go)
        ≡ reported (Some (Torque, 14)) (Some 15) None (Some 14) }
    ensures uncut { report_on (ramped_run follow None let_go) ≡ reported None None None None }
{}
