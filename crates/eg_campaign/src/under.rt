// The runs of one input under many faults.
ghost use Rattle.std.specs.Prelude.{◌≡◌, false, All, map, IfOk, Some};
ghost use Rattle.eg_fault.specs.Faults.{IsValid};
ghost use Rattle.eg_tick.specs.Counting.{AreCounted};
ghost use Rattle.eg_plan.specs.Playable.{IsPlayable};
ghost use Rattle.eg_campaign.specs.Groups.{input_under, rows_under, told_on};

use crate::checkpoints::{bench, play_from, share};
use crate::counting::count_none;
use crate::wanted::wanted_under;
use eg_base::NoMemory;
use eg_fault::Fault;
use eg_plan::RunInput;
use eg_plant::CopyEngine;
use eg_record::Facts;
use eg_tick::{BenchedEngine, Ticks};
use eg_values::Calibration;
use std::alloc::Global;

/// Does what `facts_under` does, with an engine of this type, whichever the input names.
pub(crate) fn facts_on<E: BenchedEngine + CopyEngine>(
    alloc: Global,
    calibration: &Calibration,
    input: &RunInput,
    faults: &[Fault],
    steps: &mut Ticks,
) -> Result<Vec<Facts>, NoMemory>
    requires playable { IsPlayable input.now }
    requires valid { All IsValid faults.now }
    ensures facts { IfOk result (λ all. all.items
        ≡ map (λ fault. (told_on false E.bench calibration.now (input_under (Some fault) input.now)).facts)
        faults.now) }
    ensures counted { AreCounted (rows_under E.bench calibration.now input.now faults.now)
        steps.old steps.new result }
{
    // Called for its clause alone.
    count_none(steps);
    let wanted = wanted_under(faults);
    let mut played = bench::<E>(calibration);
    let shared = share::<E, false>(alloc, &mut played, calibration, input, &wanted, steps)?;
    let mut facts = Vec::new(alloc);
    for fault in faults {
        let told = play_from::<E, false>(
            &shared,
            &mut played,
            calibration,
            input,
            Some(fault),
            steps,
        );
        facts.push(told.facts)?;
    }
    Ok(facts)
}
