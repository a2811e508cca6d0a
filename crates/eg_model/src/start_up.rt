// The start-up test of the shut-off paths, and runs without one.
ghost use Rattle.eg_model.specs.StartUp.{TestsPass, RunsWithoutReset};

/// Where nothing is out of order outside level 1 the start-up test of the shut-off paths is passed, for every
/// accepted calibration and image (docs/CONCEPT.md, "Power cycles"). It does nothing when it runs.
pub fn tests_pass()
    ensures { TestsPass }
{}

/// A run whose drive rows never reset the unit is one drive span from tick 0 (docs/CONCEPT.md, "Power
/// cycles"). It does nothing when it runs.
pub fn runs_without_reset_are_one_span()
    ensures { RunsWithoutReset }
{}
