// How long an excess lasts.
ghost use Rattle.std.specs.Prelude.{◌≡◌, true, false, [], ◌∷◌, ◌++◌, map, replicate, reverse};
ghost use Rattle.eg_values.specs.Excess.{ticks_to_confirm, longest_stretch};
ghost use Rattle.eg_values.specs.Reference.{reference_rules, reference_parts};
ghost use Rattle.eg_record.specs.Excess.{true_excess};
ghost use Rattle.eg_model.specs.Rows.{rows_of};
ghost use Rattle.eg_plant.specs.declared.engine_kind.EngineKind.{EngineKind};
ghost use Rattle.eg_model.specs.Engines.{bench_of};
ghost use Rattle.eg_laws.specs.Stretches.{StretchesEnd, StretchesEndAtOnce, ExcessLasts, ExcessLastsUntilConfirmed, StretchIsLeast, StretchAtOnceIsLeast, RecordsEndStretches, RecordsEndStretchesAtOnce};
ghost use Rattle.eg_laws.specs.Examples.{longest_closed};

/// How long an excess lasts (docs/CONCEPT.md, "Why the unit reacts"): claims 41 and 42 for histories of any
/// engine (`ends`, `at_once`), stretches that last so long (`lasts`, `confirmed`), and what follows of them.
/// It does nothing when it runs.
///
/// Claim 43 (C65; `least`, `least_at_once`): If the calibration lets an excess be confirmed at all, no
/// smaller numbers serve in claims 41 and 42 for all engines and all listed faults together.
pub fn excess_ends()
    ensures ends { StretchesEnd }
    ensures at_once { StretchesEndAtOnce }
    ensures lasts { ExcessLasts }
    ensures confirmed { ExcessLastsUntilConfirmed }
    ensures least { StretchIsLeast }
    ensures least_at_once { StretchAtOnceIsLeast }
{}

/// What `excess_ends` says, by the rows of each drive span of the record of a run on the bench, for each
/// engine (docs/CONCEPT.md, "Why the unit reacts"). It does nothing when it runs.
///
/// Claim 41 (C65; `ends`): Under at most one listed fault, each stretch of true excess in a drive span has at
/// most D - 1 + R rows.
/// Claim 42 (C65; `at_once`): Where claim 3 has the stages off from the tick after a true excess is
/// confirmed, each stretch of true excess has at most D rows.
pub fn records_end_excess()
    ensures ends { (engine : EngineKind) → RecordsEndStretches (bench_of engine) }
    ensures at_once { (engine : EngineKind) → RecordsEndStretchesAtOnce (bench_of engine) }
{}

/// `excess_ends` worked out with the reference calibration, by which the longest stretch has 38 ticks:
/// there is excess at the ticks from 12 to 49, path 1 is held closed from tick 17 on, and the stages are
/// off at tick 50. It does nothing when it runs.
pub fn longest_stretch_run()
    ensures longest { longest_stretch reference_parts ≡ 38 }
    ensures confirms { ticks_to_confirm reference_parts ≡ 5 }
    ensures excess { map (true_excess reference_rules.threshold) (reverse (rows_of longest_closed))
        ≡ replicate 12 false ++ replicate 38 true ++ false ∷ [] }
    ensures stages { map (λ m. m.on) (reverse longest_closed) ≡ replicate 50 true ++ false ∷ [] }
{}
