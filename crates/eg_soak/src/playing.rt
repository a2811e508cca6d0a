// Runs that are drawn from a number, played one after another.
ghost use Rattle.std.specs.Prelude.{◌≡◌, ℕ, ◌+◌, ◌≤◌, ◌*◌, length, map, IfOk, OnOk, OnErr};
ghost use Rattle.std.specs.List.{sum};
ghost use Rattle.eg_tick.specs.Counting.{count_with, AreCounted};
ghost use Rattle.eg_model.specs.EngineRuns.{rows_of_runs};
ghost use Rattle.eg_soak.specs.Facts.{drawn_facts};
ghost use Rattle.eg_soak.specs.Soak.{drawn_runs, soak_of};

use crate::SoakSummary;
use crate::facts::{DrawnFacts, play};
use eg_base::NoMemory;
use eg_draw::Generator;
use eg_tick::Ticks;
use eg_values::reference;
use std::alloc::Global;

/// Plays `runs` runs (1 to 500), of 2,000 ticks each, that are drawn from a number one after another
/// (docs/CONCEPT.md, "`soak`"), and tells the summary of them. The ticks are counted in `steps`. NoMemory is
/// its one refusal.
#[tactic(auto, unfolding(crate::specs::Soak::soak_of))]
pub fn soak(alloc: Global, seed: u32, runs: u32, steps: &mut Ticks) -> Result<SoakSummary, NoMemory>
    requires least { 1 ≤ runs }
    requires most { runs ≤ 500 }
    ensures summary { IfOk result (λ summary. summary ≡ soak_of (drawn_runs runs seed)) }
    // Each run is counted once: by its first watch, or among those in which none was found.
    ensures runs { IfOk result (λ summary. summary.runs ≡ runs) }
    ensures sums { IfOk result (λ summary. summary.none + sum summary.by_watch ≡ runs) }
    // The ticks of all runs are counted, with their weights; where memory ran out, the first of them.
    ensures counted { AreCounted (rows_of_runs (drawn_runs runs seed)) steps.old steps.new result }
    ensures ticks { length (rows_of_runs (drawn_runs runs seed)) ≡ runs * 2000 }
    // Where memory ran out, the ticks that are counted are those of the first runs, each run whole.
    ensures stopped { OnErr result ((k : ℕ) × (k ≤ runs)
        × (steps.new ≡ count_with steps.old (rows_of_runs (drawn_runs k seed)))) }
{
    let all = play_all(alloc, seed, runs, steps)?;
    Ok(SoakSummary::of(&all))
}

/// Plays the runs, and tells of each what counts.
#[inline(never)]
fn play_all(
    alloc: Global,
    seed: u32,
    runs: u32,
    steps: &mut Ticks,
) -> Result<Vec<DrawnFacts>, NoMemory>
    requires { runs ≤ 500 }
    ensures facts { IfOk result (λ all. all.items ≡ map drawn_facts (drawn_runs runs seed)) }
    ensures length { IfOk result (λ all. length all.items ≡ runs) }
    ensures counted { OnOk result
        (steps.new ≡ count_with steps.old (rows_of_runs (drawn_runs runs seed))) }
    ensures stopped { OnErr result ((k : ℕ) × (k ≤ runs)
        × (steps.new ≡ count_with steps.old (rows_of_runs (drawn_runs k seed)))) }
{
    // Called for its clause alone: both numbers are a u64.
    let _numbers = (steps.count(), steps.sum());
    let calibration = reference();
    let mut generator = Generator::new(seed);
    let mut all = Vec::new(alloc);
    for _done in 0..runs {
        let drawn = generator.run(alloc)?;
        let facts = play(&calibration, &drawn, steps);
        all.push(facts)?;
    }
    Ok(all)
}
