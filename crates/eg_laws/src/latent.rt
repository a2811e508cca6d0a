// Which faults can stay hidden.
ghost use Rattle.eg_plant.specs.declared.engine_kind.EngineKind.{EngineKind};
ghost use Rattle.eg_model.specs.Engines.{bench_of};
ghost use Rattle.eg_laws.specs.Latent.{ReadingsApartHide, FarMissesHide, SingleMissesHide, OneMissHides, SmallOffsetsHide, SmallScriptsHide, RestHides, DieselIsCalm, MovesInWindowHide};

/// Faults that can stay hidden, whatever the engine is (docs/CONCEPT.md, "Faults"). The runs that show it
/// have no code of level 1. It does nothing when it runs.
///
/// Claim 85 (C100; `readings_apart`): Under each valid `plate`, `wild`, `path1-closed`, `path2-closed` and
/// `path-open`, there are runs of each length, without a reset, in which no watch finds anything at any tick.
/// Claim 86 (C100; `lapses`, `single`): There are such runs under each valid lapse whose misses lie `spacing`
/// or more ticks apart, if the calibration has that number. A lapse of one tick alone, or one that misses one
/// tick every `spacing` or more, is such a lapse.
/// Claim 98 (C100; `one`): If N isn't 1, there are such runs under each valid lapse of a single tick (one
/// number in `after`, and `every` 0), if this tick is no send tick of a run without a reset.
pub fn faults_stay_hidden()
    ensures readings_apart { (engine : EngineKind) → ReadingsApartHide (bench_of engine) }
    ensures lapses { (engine : EngineKind) → FarMissesHide (bench_of engine) }
    ensures single { (engine : EngineKind) → SingleMissesHide (bench_of engine) }
    ensures one { (engine : EngineKind) → OneMissHides (bench_of engine) }
{}

/// Offsets that can stay hidden (docs/CONCEPT.md, "Faults"). It does nothing when it runs.
///
/// Claim 87 (C100): There are runs as in claim 85 under each valid `offset` on a track of a pair that moves
/// its readings, up or down, by no more than the tolerance of the pair. If the track is one of the load, the
/// greatest raise (10,000) and the threshold together must also permit the torque estimate of the greatest
/// load that is then read.
pub fn small_offsets_stay_hidden()
    ensures { (engine : EngineKind) → SmallOffsetsHide (bench_of engine) }
{}

/// Scripts that can stay hidden (docs/CONCEPT.md, "Faults"). It does nothing when it runs.
///
/// Claim 92 (C100): There are runs as in claim 85 under each valid `script` on a track of the pedal or of the
/// speed whose values lie within the tolerance of the pair from what the track reads where nobody touches the
/// pedal and the engine stands still.
pub fn small_scripts_stay_hidden()
    ensures { (engine : EngineKind) → SmallScriptsHide (bench_of engine) }
{}

/// Faults that can stay hidden where pedal, plate and raise are at 0 (docs/CONCEPT.md, "Faults"). It does
/// nothing when it runs.
///
/// Claim 89 (C100; `rest`, `diesel`): If there is a speed at which the permit table and the threshold permit
/// the torque estimate of the engine at rest, as they always do of the diesel engine, there are runs as in
/// claim 85 under three kinds of valid faults: `bus`; `script` and `offset` on a contact of the brake; and an
/// `offset` that is cut off at rest, since it moves a first track of the pedal or of the plate down, or a
/// second track up.
pub fn faults_stay_hidden_at_rest()
    ensures rest { (engine : EngineKind) → RestHides (bench_of engine) }
    ensures diesel { DieselIsCalm }
{}

/// A send tick that is moved within the answer window can stay hidden (docs/CONCEPT.md, "Questions and
/// answers"). It does nothing when it runs.
///
/// Claim 88 (C100): There are runs as in claim 85 under each valid `timing` with an `offset` within the
/// answer window, if one wrong verdict isn't enough to confirm, or if the period in which the onset lies
/// keeps one answer.
pub fn moves_in_the_window_stay_hidden()
    ensures { (engine : EngineKind) → MovesInWindowHide (bench_of engine) }
{}
