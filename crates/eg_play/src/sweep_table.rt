// The table of a sweep is written.
ghost use Rattle.std.specs.Prelude.{◌≤◌, All, map, length};
ghost use Rattle.eg_fault.specs.Faults.{IsValid};
ghost use Rattle.eg_campaign.specs.Groups.{inputs_under, rows_of_group, facts_by};
ghost use Rattle.eg_plan.specs.Playable.{IsPlayable};
ghost use Rattle.eg_table.specs.Sweep.{table_of};
ghost use Rattle.eg_table.specs.SweepTexts.{sweep_text_of};
ghost use Rattle.eg_outcome.specs.Changes.{change, change_of};
ghost use Rattle.eg_outcome.specs.Outcomes.{LineEnds};
ghost use Rattle.eg_play.specs.Ends.{AreTicked, Sweeps};
ghost use Rattle.eg_outcome.specs.Runs.{IsSweepable};

use eg_base::Sink;
use eg_campaign::facts_under;
use eg_fault::Fault;
use eg_outcome::{Outcome, put_text, without_resets};
use eg_plan::RunInput;
use eg_table::{SweepFault, sweep_faults, sweep_text, tabulate};
use eg_tick::Ticks;
use eg_values::Calibration;
use std::alloc::Global;

/// Plays one run, without its resets, under a fault of each class at each `step`th tick, and puts the table
/// of these runs (docs/FORMATS.md, "The table of `sweep`"). The ticks are counted in `steps`.
pub fn put_table<K: Sink>(
    alloc: Global,
    calibration: &Calibration,
    input: RunInput,
    step: u32,
    out: &mut K,
    steps: &mut Ticks,
) -> Outcome
    requires sweepable { IsSweepable step input }
    requires step { 1 ≤ step }
    ensures { Sweeps calibration.now step input (change_of K.shows out.old out.new)
        (change steps.old steps.new) result }
{
    // Called for their clauses alone: the calibration is an accepted one, and both numbers are a u64.
    let _rules = calibration.rules();
    let _numbers = (steps.count(), steps.sum());
    let faults = match sweep_faults(alloc, input.drive.as_slice().len() as u32, step) {
        Ok(faults) => faults,
        Err(SweepFault::Grid) => unreachable!("the grid isn't too large"),
        Err(SweepFault::Memory) => return Outcome::Memory,
    };
    let Ok(input) = without_resets(alloc, input) else {
        return Outcome::Memory;
    };
    put_rows(alloc, calibration, &input, &faults, out, steps)
}

/// Plays one run under each of these faults, and puts the table of these runs.
fn put_rows<K: Sink>(
    alloc: Global,
    calibration: &Calibration,
    input: &RunInput,
    faults: &[Fault],
    out: &mut K,
    steps: &mut Ticks,
) -> Outcome
    requires playable { IsPlayable input.now }
    requires valid { All IsValid faults.now }
    requires group { 2 ≤ length faults.now }
    requires most { length faults.now ≤ 1000 }
    ensures written { LineEnds (sweep_text_of (table_of faults.now
        (map (facts_by calibration.now) (inputs_under input.now faults.now))))
        (change_of K.shows out.old out.new) result }
    ensures ticked { AreTicked (rows_of_group calibration.now (inputs_under input.now faults.now))
        (change steps.old steps.new) result }
{
    let Ok(facts) = facts_under(alloc, calibration, input, faults, steps) else {
        return Outcome::Memory;
    };
    let rows = tabulate(faults, &facts);
    let Ok(text) = sweep_text(alloc, &rows) else {
        return Outcome::Memory;
    };
    put_text(&text, out)
}
