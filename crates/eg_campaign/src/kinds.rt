// What is played on the engine that an input names.
ghost use Rattle.std.specs.Prelude.{◌≡◌, ◌≤◌, ◌<◌, ◌==◌, All, filter, map, length, slice_index_or, OnOk};
ghost use Rattle.eg_record.specs.declared.run_facts.RunFacts.{RunFacts};
ghost use Rattle.eg_model.specs.Engines.{bench_of};
ghost use Rattle.eg_fault.specs.Faults.{IsValid};
ghost use Rattle.eg_tick.specs.Counting.{AreCounted};
ghost use Rattle.eg_plan.specs.Playable.{IsPlayable};
ghost use Rattle.eg_model.specs.EngineRuns.{rows_in_time};
ghost use Rattle.eg_campaign.specs.Plays.{IsPlayed, run_with};
ghost use Rattle.eg_campaign.specs.Groups.{AreTold, group_of, inputs_under, leader_in, rows_of_group, facts_by, told_by, written_over};
ghost use Rattle.eg_campaign.specs.Inner.Checkpoints.{AreFor};
ghost use Rattle.eg_campaign.specs.Recording.{WritesRecord};

use crate::checkpoints::{Bench, bench, play_alone};
use crate::groups::{Group, play_group};
use crate::recording::{RecordStop, record_on};
use crate::under::facts_on;
use eg_base::{NoMemory, Sink};
use eg_diesel::DieselEngine;
use eg_fault::Fault;
use eg_plan::{EngineKind, RunInput};
use eg_plant::GasolineEngine;
use eg_record::{Facts, RunFacts};
use eg_tick::Ticks;
use eg_values::Calibration;
use std::alloc::Global;

/// Where the runs of a campaign are played, one after another: a bench for each kind of engine, which each
/// run begins anew. So a run copies no controller.
#[derive(Drop)]
pub(crate) struct Benches {
    pub(crate) gasoline: Bench<GasolineEngine>,
    pub(crate) diesel: Bench<DieselEngine>,
}

impl Benches {
    /// Benches for runs of this calibration.
    pub(crate) fn new(calibration: &Calibration) -> Benches
        ensures { AreFor calibration.now result }
    {
        Benches {
            gasoline: bench(calibration),
            diesel: bench(calibration),
        }
    }
}

/// Plays one run of the engine that it names, and tells of it.
pub(crate) fn tell_one<const WEIGHED: bool>(
    benches: &mut Benches,
    calibration: &Calibration,
    input: &RunInput,
    steps: &mut Ticks,
) -> RunFacts
    requires playable { IsPlayable input.now }
    requires benches { AreFor calibration.now benches.old }
    ensures told { IsPlayed WEIGHED (bench_of input.now.plan.engine) (run_with calibration.now input.now).run
        steps.old steps.new result }
    ensures benches { AreFor calibration.now benches.new }
{
    match input.plan.engine {
        EngineKind::Gasoline => {
            play_alone::<GasolineEngine, WEIGHED>(&mut benches.gasoline, calibration, input, steps)
        }
        EngineKind::Diesel => {
            play_alone::<DieselEngine, WEIGHED>(&mut benches.diesel, calibration, input, steps)
        }
    }
}

/// Plays this group, or the run that leads it alone where the group has no other. What each run of the group
/// tells is written at its index.
#[inline(never)]
pub(crate) fn play_first<const WEIGHED: bool>(
    alloc: Global,
    benches: &mut Benches,
    calibration: &Calibration,
    inputs: &[RunInput],
    group: Group<'_>,
    told: &mut [RunFacts],
    steps: &mut Ticks,
) -> Result<(), NoMemory>
    requires playable { All IsPlayable inputs.now }
    requires index { group.index < length inputs.now }
    requires leaders { group.leaders.now ≡ map (leader_in inputs.now) inputs.now }
    requires leads { slice_index_or group.leaders.now group.index 0 ≡ group.index }
    requires size { group.size ≡ length (filter (λ leader. leader == group.index) group.leaders.now) }
    requires places { length told.old ≡ length inputs.now }
    requires benches { AreFor calibration.now benches.old }
    ensures benches { OnOk result (AreFor calibration.now benches.new) }
    ensures told { (x : RunInput) → x ≡ slice_index_or inputs.now group.entry.index x →
        (before : RunInput → RunFacts) → told.old ≡ map before inputs.now → OnOk result
        (told.new ≡ map (written_over (told_by WEIGHED calibration.now) x before) inputs.now) }
    ensures counted { (x : RunInput) → x ≡ slice_index_or inputs.now group.entry.index x →
        AreCounted (rows_of_group calibration.now (group_of inputs.now x)) steps.old steps.new result }
{
    let index = group.index;
    let input = &inputs[index];
    if group.size < 2 {
        told[index] = tell_one::<WEIGHED>(benches, calibration, input, steps);
        return Ok(());
    }
    match input.plan.engine {
        EngineKind::Gasoline => {
            play_group::<GasolineEngine, WEIGHED>(
                alloc,
                &mut benches.gasoline,
                calibration,
                inputs,
                group,
                told,
                steps,
            )
        }
        EngineKind::Diesel => {
            play_group::<DieselEngine, WEIGHED>(
                alloc,
                &mut benches.diesel,
                calibration,
                inputs,
                group,
                told,
                steps,
            )
        }
    }
}

/// Plays the runs of one input under each of these faults in place of its own, two or more, and tells the
/// facts of each (docs/CONCEPT.md, "`sweep`"). It tells what `facts_all` tells of these runs, which are a
/// group, and makes the same ticks, but is handed one input in place of a copy for each fault. The ticks are
/// counted in `steps`. NoMemory is its one refusal.
#[inline(never)]
pub fn facts_under(
    alloc: Global,
    calibration: &Calibration,
    input: &RunInput,
    faults: &[Fault],
    steps: &mut Ticks,
) -> Result<Vec<Facts>, NoMemory>
    requires playable { IsPlayable input.now }
    requires valid { All IsValid faults.now }
    requires group { 2 ≤ length faults.now }
    ensures { AreTold (facts_by calibration.now) (inputs_under input.now faults.now)
        (rows_of_group calibration.now (inputs_under input.now faults.now)) steps.old steps.new result }
{
    match input.plan.engine {
        EngineKind::Gasoline => {
            facts_on::<GasolineEngine>(alloc, calibration, input, faults, steps)
        }
        EngineKind::Diesel => facts_on::<DieselEngine>(alloc, calibration, input, faults, steps),
    }
}

/// Plays a run, and puts its record to an output: the header, and the line of each row as its tick is made
/// (docs/FORMATS.md, "The record"; docs/CONCEPT.md, "The record of a run"). It takes no memory of its own. No
/// clause says that each line is one put: a test shows it. The ticks are counted in `steps`.
#[inline(never)]
pub fn record_into<K: Sink>(
    calibration: &Calibration,
    input: &RunInput,
    out: &mut K,
    steps: &mut Ticks,
) -> Result<(), RecordStop>
    requires { IsPlayable input.now }
    ensures { WritesRecord (rows_in_time (run_with calibration.now input.now))
        (K.shows out.old) (K.shows out.new) steps.old steps.new result }
{
    match input.plan.engine {
        EngineKind::Gasoline => record_on::<GasolineEngine, K>(calibration, input, out, steps),
        EngineKind::Diesel => record_on::<DieselEngine, K>(calibration, input, out, steps),
    }
}
