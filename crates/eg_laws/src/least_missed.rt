// The least bound for stretches of excess under lapses.
ghost use Rattle.std.specs.Prelude.{◌≡◌};
ghost use Rattle.eg_values.specs.Reference.{reference_parts};
ghost use Rattle.eg_values.specs.Excess.{longest_missed};
ghost use Rattle.eg_laws.specs.LeastMissed.{MissedIsListed, MissedExcessLasts, MissedBoundIsLeast};

/// Where `missed` of `limits` is the least number (docs/CONCEPT.md, "Lapses"). `lasts` has the reason: level
/// 2 runs at the first D - 1 ticks of a stretch, and misses each tick from the one right behind a send tick
/// on. It does nothing when it runs.
///
/// Claim 101 (C103; `listed`, `least`): If N is 1, `down` of the answers is 0, or D is at most the period
/// and one tick, then `missed`, where it is a number, is D - 1 + R, as long as under a listed fault. If the
/// calibration also lets an excess be confirmed at all, no smaller number bounds each stretch of true excess
/// under lapses for all engines.
pub fn missed_bound_is_least()
    ensures listed { MissedIsListed }
    ensures lasts { MissedExcessLasts }
    ensures least { MissedBoundIsLeast }
    ensures reference { longest_missed reference_parts ≡ 38 }
{}
