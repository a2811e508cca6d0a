// The facts of runs after each of their ticks, worked out from the definitions. None of these functions does
// anything when it runs.
ghost use Rattle.std.specs.Prelude.{◌≡◌, ◌++◌, None};
ghost use Rattle.eg_fault.specs.declared.class.Class.TheVariants.{Path1Closed};
ghost use Rattle.eg_model.specs.Engines.{gasoline};
ghost use Rattle.eg_model.specs.Rows.{record_rows};
ghost use Rattle.eg_model.specs.Examples.{full, fault_from, run_of, bench_run};
ghost use Rattle.eg_runs.specs.PowerCycles.{cycle, rest};
ghost use Rattle.eg_runs.specs.Facts.{facts_along, for_each, cut_at_10, on_again, on_after_the_test, first_stretch, first_peak, next_stretch, next_peak};

/// Full throttle, where path 1 closes at tick 11, for 60 ticks; and full throttle with a reset at tick 20,
/// for 70: what facts tell after each tick.
pub fn facts_tick_by_tick()
    ensures closed_path { facts_along (record_rows gasoline (bench_run full (fault_from 11 Path1Closed) 60))
        ≡ for_each (cut_at_10 on_again next_stretch next_peak) 60 }
    ensures reset { facts_along (record_rows gasoline (run_of full None (rest 20 ++ cycle 50)))
        ≡ for_each (cut_at_10 on_after_the_test first_stretch first_peak) 70 }
{}
