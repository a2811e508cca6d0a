// The laws of lapses.
ghost use Rattle.eg_model.specs.Lapses.{CutsStandingExcess, StretchesAreShort};

/// The laws of lapses (docs/CONCEPT.md, "Lapses"): level 2 as a whole doesn't run at some ticks, which may
/// be any. By `cut`, for a calibration that has a bound, where `lapse_periods` whole periods lie in a
/// stretch of true excess, the stages are off from the tick after the last of them to the end of the power
/// cycle. `short` says for histories of any engine what claim 21 says of records. Nothing is said of an
/// excess with gaps. It does nothing when it runs.
pub fn standing_excess_is_cut()
    ensures cut { CutsStandingExcess }
    ensures short { StretchesAreShort }
{}
