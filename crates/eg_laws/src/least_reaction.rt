// The worst-case reaction is the least.
ghost use Rattle.std.specs.Prelude.{◌≡◌, true, false, [], ◌∷◌, ◌++◌, map, replicate, reverse, Some};
ghost use Rattle.eg_record.specs.Excess.{first_confirmed};
ghost use Rattle.eg_values.specs.Reference.{reference_rules};
ghost use Rattle.eg_model.specs.Rows.{rows_of};
ghost use Rattle.eg_laws.specs.LeastReaction.{StaysOnSoLong, ReactionIsLeast, NeedsCanExceed};
ghost use Rattle.eg_laws.specs.Examples.{latest_cut};

/// No smaller number than R can stand in the reaction theorem (docs/CONCEPT.md, "Why the unit reacts").
/// `stays_on` has the reason: a history with path 1 closed in which the stages are still on R - 1 ticks after
/// the excess was confirmed. It does nothing when it runs.
///
/// Claim 6 (C64; `least`): If the calibration lets an excess be confirmed at all, no number of ticks below R
/// serves in claim 4 for all engines and all listed faults together.
pub fn reaction_is_least()
    ensures stays_on { StaysOnSoLong }
    ensures least { ReactionIsLeast }
    ensures needed { NeedsCanExceed }
{}

/// `reaction_is_least` worked out with the reference calibration, whose R is 34: the excess is confirmed at
/// tick 16, and the stages are on up to tick 49 and off at tick 50. It does nothing when it runs.
pub fn latest_cut_run()
    ensures confirmed { first_confirmed reference_rules.torque reference_rules.threshold (rows_of latest_cut)
        ≡ Some 16 }
    ensures stages { map (λ m. m.on) (reverse latest_cut) ≡ replicate 50 true ++ false ∷ [] }
{}
