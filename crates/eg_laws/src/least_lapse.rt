// The least bound under lapses.
ghost use Rattle.std.specs.Prelude.{◌≡◌, true, false, [], ◌∷◌, ◌++◌, map, replicate, reverse};
ghost use Rattle.eg_values.specs.Reference.{reference_rules, reference_parts};
ghost use Rattle.eg_record.specs.Excess.{true_excess};
ghost use Rattle.eg_model.specs.Rows.{rows_of};
ghost use Rattle.eg_laws.specs.LeastLapse.{least_lapse_bound, StretchesAreShorter, NoneStandsSoLong, ExcessLastsSoLong, LapseBoundIsLeast};
ghost use Rattle.eg_laws.specs.Examples.{longest_excess};

/// R + D as a bound under lapses (docs/CONCEPT.md, "Lapses"). `lasts` has the reason why no smaller number is
/// one: some stretch lasts R + D - 1 ticks. By `below`, where D is at most `send` + 1, no excess stands for
/// `lapse_periods` whole periods. It does nothing when it runs.
///
/// Claim 22 (C72; `shorter`, `least`): Under lapses, with a calibration without a ramp and with D at most
/// the period, each stretch of true excess has fewer than R + D ticks. If the calibration lets an excess be
/// confirmed at all, no smaller number serves for all engines, whatever ramp and D are.
pub fn lapse_bound_is_least()
    ensures shorter { StretchesAreShorter }
    ensures below { NoneStandsSoLong }
    ensures lasts { ExcessLastsSoLong }
    ensures least { LapseBoundIsLeast }
{}

/// `lapse_bound_is_least` worked out with the reference calibration, whose least bound is 39 ticks: there is
/// excess at the 38 ticks from 12 to 49, and the stages are off at tick 50. It does nothing when it runs.
pub fn longest_excess_run()
    ensures bound { least_lapse_bound reference_parts ≡ 39 }
    ensures excess { map (true_excess reference_rules.threshold) (reverse (rows_of longest_excess))
        ≡ replicate 12 false ++ replicate 38 true ++ false ∷ [] }
    ensures stages { map (λ m. m.on) (reverse longest_excess) ≡ replicate 50 true ++ false ∷ [] }
{}
