// How often an excess may come again.
ghost use Rattle.std.specs.Prelude.{◌≡◌, ◌+◌, ◌-◌, true, false, [], ◌∷◌, ◌++◌, replicate};
ghost use Rattle.eg_values.specs.Reference.{reference_rules};
ghost use Rattle.eg_plant.specs.declared.engine_kind.EngineKind.{EngineKind};
ghost use Rattle.eg_model.specs.Engines.{bench_of};
ghost use Rattle.eg_laws.specs.Bursts.{most_bad, densest, hasty, BurstsAreSparse, SoManyCanBeBad, FewerMayDo, RecordsAreSparse};
ghost use Rattle.eg_laws.specs.FaultyBursts.{RecordsEndBursts, RecordsEndBurstsAtOnce, BurstsLast, BurstsLastUntilConfirmed};

/// How often an excess may come again and not be confirmed (docs/CONCEPT.md, "Why the unit reacts"): what
/// claim 44 says of rows, of any bits (`sparse`). So many may be bad where `up` and `down` together are at
/// most the limit (`reached`). Elsewhere good feeds may be lost below 0, and then it is fewer (`fewer`): by
/// 1, 2 and 2 half of the ticks, where the number says two thirds. It does nothing when it runs.
pub fn bursts_are_sparse()
    ensures sparse { BurstsAreSparse }
    ensures reached { SoManyCanBeBad }
    ensures fewer { FewerMayDo }
{}

/// How often a true excess may come again and not be confirmed, by the rows of each drive span of the record
/// of a run on the bench, for each engine. It does nothing when it runs.
///
/// Claim 44 (C66): Of n consecutive rows of a drive span, at most `(limit - 1 + n*down)/(up + down)` have
/// true excess (rounded down), by the weights of the torque, if no true excess is confirmed in the span by
/// the last of these rows.
pub fn records_are_sparse()
    ensures { (engine : EngineKind) → RecordsAreSparse (bench_of engine) }
{}

/// How many of n rows in a row have true excess, whether it is confirmed or not (docs/CONCEPT.md, "Why the
/// unit reacts"). It does nothing when it runs.
///
/// Claim 67 (C66; `ends`): Let B(n) be the number of claim 44. Under at most one listed fault, at most B(n -
/// R) + R of n consecutive rows of a drive span have true excess.
/// Claim 68 (C66; `at_once`): Where claim 3 has the stages off from the tick after a true excess is
/// confirmed, at most B(n - 1) + 1 of n consecutive rows have true excess.
pub fn records_end_bursts()
    ensures ends { (engine : EngineKind) → RecordsEndBursts (bench_of engine) }
    ensures at_once { (engine : EngineKind) → RecordsEndBurstsAtOnce (bench_of engine) }
{}

/// So many can have it, for histories: with path 1 held closed once the excess is confirmed, or without a
/// fault (docs/CONCEPT.md, "Why the unit reacts"). It does nothing when it runs.
///
/// Claim 69 (C66): With some engine that keeps its laws, as many rows as claims 67 and 68 allow, or all n if
/// that is less, can have true excess, if `up + down <= limit` for the weights of the torque and the
/// calibration lets an excess be confirmed at all. For claim 67, n must be at least R, and a run long enough
/// for such a burst. For claim 68, n must be at least 1.
pub fn bursts_last()
    ensures lasts { BurstsLast }
    ensures until_confirmed { BurstsLastUntilConfirmed }
{}

/// `bursts_are_sparse` worked out with the reference calibration, whose weights are 1, 1 and 5 (`up`, `down`
/// and the limit): 52 of 100 ticks may have excess, and 69 under a listed fault, R being 34. The densest
/// ticks are four of excess, and then every other one. By weights of 1, 2 and 2 the law's number is 3 of 4.
/// It does nothing when it runs.
pub fn densest_feeds()
    ensures most { most_bad reference_rules.torque 100 ≡ 52 }
    ensures listed { most_bad reference_rules.torque (100 - 34) + 34 ≡ 69 }
    ensures densest { densest reference_rules.torque 8 ≡ true ∷ false ∷ true ∷ false ∷ replicate 4 true }
    ensures hasty { most_bad hasty 4 ≡ 3 }
{}
