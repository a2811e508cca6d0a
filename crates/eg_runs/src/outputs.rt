// Runs that show that level 1 acts by its two outputs alone, worked out from the definitions. None of these
// functions does anything when it runs.
ghost use Rattle.std.specs.Prelude.{◌≡◌, [], ◌∷◌, map, take, None};
ghost use Rattle.eg_model.specs.Outputs.{without_outputs};
ghost use Rattle.eg_model.specs.Examples.{full, bench_run, alternating_run, rows_in_time};
ghost use Rattle.eg_runs.specs.Outputs.{full_anew};

/// Level 1 sets both outputs to 1000 once, or anew in each slice: the rows are the same, up to the cut at
/// tick 10 and after it.
pub fn full_in_two_ways()
    ensures { rows_in_time (bench_run full_anew None 20) ≡ rows_in_time (bench_run full None 20) }
{}

/// Level 1 sets both outputs to 1000 at tick 0, or does nothing in that tick. The rows of tick 0 are equal
/// but for the outputs; at tick 1 the plate has risen, or not.
pub fn outputs_act_a_tick_later()
    ensures first { map without_outputs (take 1 (rows_in_time (bench_run full None 2)))
        ≡ map without_outputs (take 1 (rows_in_time alternating_run)) }
    ensures full { map (λ row. row.plate) (rows_in_time (bench_run full None 2)) ≡ 0 ∷ 50 ∷ [] }
    ensures late { map (λ row. row.plate) (rows_in_time alternating_run) ≡ 0 ∷ 0 ∷ [] }
{}
