// A span of a run is a history by itself.
ghost use Rattle.eg_model.specs.SpanHistories.{SpansAreHistories};

/// A span of a run is a history by itself (docs/CONCEPT.md, "Power cycles"): what is true of its ticks
/// follows from these ticks alone, and at each of them the fault does what it does at that tick of the run.
/// So each law of histories holds of each span of a run. It does nothing when it runs.
///
/// Claim 4.
pub fn spans_are_histories()
    ensures { SpansAreHistories }
{}
