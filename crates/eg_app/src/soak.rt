// `soak SEED RUNS`: the summary of runs that are drawn from a number.
ghost use Rattle.std.specs.Prelude.{◌≤◌};
ghost use Rattle.eg_outcome.specs.Changes.{change, change_of};
ghost use Rattle.eg_app.specs.Performed.{SoakEnds};

use eg_base::Sink;
use eg_outcome::{Outcome, put_lines};
use eg_soak::{soak, soak_lines};
use eg_tick::Ticks;
use eg_values::reference;
use std::alloc::Global;

/// Plays `runs` runs (1 to 500) that are drawn from the seed, and writes the summary of them
/// (docs/FORMATS.md, "The summary of `soak`"). Ticks are counted in `steps`.
#[inline(never)]
pub(crate) fn play_drawn<K: Sink>(
    alloc: Global,
    seed: u32,
    runs: u32,
    out: &mut K,
    steps: &mut Ticks,
) -> Outcome
    requires least { 1 ≤ runs }
    requires most { runs ≤ 500 }
    ensures { SoakEnds seed runs (change_of K.shows out.old out.new) (change steps.old steps.new) result }
{
    // Called for its clause alone: the reference calibration is an accepted one.
    let _calibration = reference();
    let Ok(summary) = soak(alloc, seed, runs, steps) else {
        return Outcome::Memory;
    };
    let Ok(lines) = soak_lines(alloc, &summary) else {
        return Outcome::Memory;
    };
    put_lines(&lines, out)
}
