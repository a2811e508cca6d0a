// A group of runs, which share what comes before their faults.
ghost use Rattle.std.specs.Prelude.{◌≡◌, ◌<◌, All, map, length, slice_index_or, OnOk};
ghost use Rattle.eg_record.specs.declared.run_facts.RunFacts.{RunFacts};
ghost use Rattle.eg_tick.specs.Counting.{AreCounted};
ghost use Rattle.eg_plan.specs.Playable.{IsPlayable};
ghost use Rattle.eg_campaign.specs.Groups.{leader_in, rows_shared, told_on, written_over};

use crate::checkpoints::{Bench, play_from, share};
use crate::counting::count_none;
use crate::wanted::wanted_in;
use eg_base::NoMemory;
use eg_plan::RunInput;
use eg_plant::CopyEngine;
use eg_record::RunFacts;
use eg_tick::{BenchedEngine, Ticks};
use eg_values::Calibration;
use std::alloc::Global;

/// The group that the run at an index leads, by the leader of each run of the campaign, and how many it is.
#[derive(Clone, Copy)]
pub(crate) struct Group<'a> {
    pub(crate) leaders: &'a [usize],
    pub(crate) index: usize,
    pub(crate) size: usize,
}

/// Plays this group on an engine of this type: the run without a fault once, and each run of the group from
/// there. What each tells is written at its index.
pub(crate) fn play_group<E: BenchedEngine + CopyEngine, const WEIGHED: bool>(
    alloc: Global,
    played: &mut Bench<E>,
    calibration: &Calibration,
    inputs: &[RunInput],
    group: Group<'_>,
    told: &mut [RunFacts],
    steps: &mut Ticks,
) -> Result<(), NoMemory>
    requires all { All IsPlayable inputs.now }
    requires index { group.index < length inputs.now }
    requires leaders { group.leaders.now ≡ map (leader_in inputs.now) inputs.now }
    requires leads { slice_index_or group.leaders.now group.index 0 ≡ group.index }
    requires places { length told.old ≡ length inputs.now }
    requires bench { played.old.controller.kept.cal ≡ calibration.now }
    ensures bench { OnOk result (played.new.controller.kept.cal ≡ calibration.now) }
    ensures told { (x : RunInput) → x ≡ slice_index_or inputs.now group.entry.index x →
        (before : RunInput → RunFacts) → told.old ≡ map before inputs.now → OnOk result
        (told.new ≡ map (written_over (told_on WEIGHED E.bench calibration.now) x before) inputs.now) }
    ensures counted { (x : RunInput) → x ≡ slice_index_or inputs.now group.entry.index x →
        AreCounted (rows_shared E.bench calibration.now inputs.now x) steps.old steps.new result }
{
    // Called for its clause alone.
    count_none(steps);
    let (leaders, index) = (group.leaders, group.index);
    let input = &inputs[index];
    let wanted = wanted_in(inputs, leaders, index);
    let shared = share::<E, WEIGHED>(alloc, played, calibration, input, &wanted, steps)?;
    for i in index..inputs.len() {
        if leaders[i] != index {
            continue;
        }
        let other = &inputs[i];
        let fault = other.plan.fault.as_ref();
        let one = play_from::<E, WEIGHED>(&shared, played, calibration, other, fault, steps);
        told[i] = one;
    }
    Ok(())
}
