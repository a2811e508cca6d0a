// Misses that lie closer than the least spacing.
ghost use Rattle.eg_laws.specs.CloserMisses.{CloserMissesCut, SpacingIsLeast, NoSpacingServes, SilentMissesAreMost};

/// Misses that lie closer, or are more, than those that never cut (docs/CONCEPT.md, "Lapses"). `closer` has
/// the history: its misses lie one tick closer than `spacing`, and path 2 is ordered open without a trip. It
/// does nothing when it runs.
///
/// Claim 102 (C73; `least`, `none`): For histories that begin with a drive span, no smaller number than
/// `spacing` keeps wrong answers from opening path 2 before a trip under lapses whose misses lie so far
/// apart. If `spacing` is `none`, no number does.
/// Claim 103 (C73; `most`): The number of missed ticks in claim 99 is the greatest that keeps wrong answers
/// from opening path 2 before a trip in all histories that begin with a drive span.
pub fn closer_misses_cut()
    ensures closer { CloserMissesCut }
    ensures least { SpacingIsLeast }
    ensures none { NoSpacingServes }
    ensures most { SilentMissesAreMost }
{}
