// The files of all runs of a campaign.
ghost use Rattle.std.specs.Prelude.{◌≡◌, ◌≤◌, ◌++◌, ◌∷◌, [], All, None, length, IfErr, IfOk, OnOk};
ghost use Rattle.eg_fault.specs.Faults.{IsNoneOrValid};
ghost use Rattle.eg_plan.specs.Playable.{IsPlayable};
ghost use Rattle.eg_outcome.specs.Changes.{change_of};
ghost use Rattle.eg_outcome.specs.Outcomes.{TellsNoMemory};
ghost use Rattle.eg_outcome.specs.Reads.{KeepsFiles};
ghost use Rattle.eg_outcome.specs.declared.outcome.Outcome.TheVariants.{Memory};
ghost use Rattle.eg_outcome.specs.Inputs.{InputsCome, outcomes};
ghost use Rattle.eg_outcome.specs.Roles.{role_in};
ghost use Rattle.eg_outcome.specs.Runs.{name_for, IsNamedIfOfRun, ReadsCampaign, RunsCome};

use crate::campaign::campaign_for;
use crate::input::input_for;
use crate::traces::Traces;
use crate::{End, Outcome};
use eg_base::{Items, Store};
use eg_plan::{RunInput, RunPlan};
use std::alloc::Global;

/// The inputs of all runs of the campaign in the file of that name, in its order: the campaign is read, and
/// then the files of its runs (docs/FORMATS.md, "Outcomes").
pub fn inputs_of<S: Store>(
    alloc: Global,
    campaign: &str,
    store: &mut S,
) -> Result<Items<RunInput>, End>
    ensures comes { RunsCome campaign.now (change_of S.shows store.old store.new) (outcomes result) }
    ensures playable { IfOk result (λ inputs. All IsPlayable inputs) }
    ensures campaign { ReadsCampaign campaign.now (change_of S.shows store.old store.new) result }
{
    match campaign_for(alloc, campaign, store) {
        Ok(plans) => inputs_for(alloc, plans, store),
        Err(outcome) => Err(End::of(outcome)),
    }
}

/// The inputs of all runs of a campaign, in its order. A trace with the bytes of the one before is read, but
/// isn't parsed again, and runs with equal drives share one.
fn inputs_for<S: Store>(
    alloc: Global,
    plans: Items<RunPlan>,
    store: &mut S,
) -> Result<Items<RunInput>, End>
    requires faults { All (λ plan. IsNoneOrValid plan.fault) plans }
    requires most { length plans ≤ 1000 }
    ensures comes { InputsCome (change_of S.shows store.old store.new) 1 0 plans (outcomes result) }
    ensures playable { IfOk result (λ inputs. All IsPlayable inputs) }
    ensures named { IfErr result (λ end. end.file ≡ name_for plans (role_in end.outcome)) }
    ensures some { IfErr result (λ end. IsNamedIfOfRun (role_in end.outcome) end.file) }
    ensures no_memory { IfErr result (λ end. TellsNoMemory end.outcome) }
    ensures keeps { KeepsFiles (change_of S.shows store.old store.new) result }
{
    let mut inputs = Vec::new(alloc);
    let mut traces = Traces::new(alloc);
    let mut sum = 0;
    let mut run = 1;
    for plan in plans.into_vec() {
        let input = match input_for(alloc, run, Some(sum), plan, &mut traces, store) {
            Ok(input) => input,
            Err(end) => return Err(end),
        };
        sum += input.drive.as_slice().len() as u32;
        run += 1;
        match push(&mut inputs, input) {
            Ok(()) => {}
            Err(end) => return Err(end),
        }
    }
    Ok(Items::new(inputs))
}

/// Puts an input behind those that were made.
fn push(inputs: &mut Vec<RunInput>, input: RunInput) -> Result<(), End>
    ensures pushed { OnOk result (inputs.new.items ≡ inputs.old.items ++ input ∷ []) }
    ensures memory { IfErr result (λ end. end.outcome ≡ Memory) }
    ensures file { IfErr result (λ end. end.file ≡ None) }
{
    match inputs.push(input) {
        Ok(()) => Ok(()),
        Err(_) => Err(End::of(Outcome::Memory)),
    }
}
