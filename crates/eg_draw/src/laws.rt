// What holds of all drawn runs.
ghost use Rattle.std.specs.Prelude.{ℕ};
ghost use Rattle.eg_draw.specs.Runs.{drawn_run, IsDrawn};

/// The law on drawn runs (docs/CONCEPT.md, "The generator of `soak`"): each has an image of at most 256
/// words, a drive of 2,000 rows within their limits, and no fault or a valid one. It does nothing when it
/// runs.
pub fn each_run_is_proper()
    ensures { (x : ℕ) → IsDrawn (drawn_run x) }
{}
