// The run of a campaign that has a name.
ghost use Rattle.std.specs.Prelude.{◌≡◌, ◌≤◌, length, IfErr, IfOk, Err, Some, None, bytes_eq};
ghost use Rattle.eg_base.specs.Outside.{ShownStore};
ghost use Rattle.eg_plan.specs.Rules.{AreRuns};
ghost use Rattle.eg_fault.specs.Faults.{IsNoneOrValid};
ghost use Rattle.eg_input.specs.declared.image.TheConstants.{MOST_WORDS};
ghost use Rattle.eg_plan.specs.Playable.{IsPlayable};
ghost use Rattle.eg_outcome.specs.Changes.{change, change_of};
ghost use Rattle.eg_outcome.specs.declared.outcome.Outcome.TheVariants.{Refused};
ghost use Rattle.eg_outcome.specs.declared.outcome.Refusal.TheVariants.{Grid, NoRun};
ghost use Rattle.eg_table.specs.Grid.{is_too_large};
ghost use Rattle.eg_outcome.specs.Inputs.{outcomes};
ghost use Rattle.eg_outcome.specs.Runs.{FindsNamed, GridComes, NamedComes, ReadsCampaign, SweptComes, UndrivenComes, run_named, IsSweepable};

use crate::campaign::campaign_for;
use crate::input::{input_for, undriven_for};
use crate::traces::Traces;
use crate::{End, Outcome, Refusal};
use eg_base::{Items, Store};
use eg_plan::{RunInput, RunPlan};
use eg_table::is_too_large;
use std::alloc::Global;

/// Which run of a campaign is asked for.
#[derive(Clone, Copy)]
pub struct NamedRun<'a> {
    /// The name of the campaign's file.
    pub campaign: &'a str,
    /// The name of the run in it.
    pub name: &'a str,
}

/// The input of the run of that name: the campaign is read, and then the files of this run alone
/// (docs/FORMATS.md, "Outcomes").
pub fn input_named<S: Store>(
    alloc: Global,
    run: NamedRun<'_>,
    store: &mut S,
) -> Result<RunInput, End>
    ensures comes { NamedComes run.entry.campaign.now run.entry.name.now
        (change_of S.shows store.old store.new) (outcomes result) }
    ensures playable { IfOk result IsPlayable }
    ensures campaign { ReadsCampaign run.entry.campaign.now (change_of S.shows store.old store.new) result }
{
    match plan_named(alloc, run, store) {
        Ok((number, plan)) => {
            input_for(alloc, number, None, plan, &mut Traces::new(alloc), store)
        }
        Err(end) => Err(end),
    }
}

/// The input of the run of that name, for a sweep over all classes of faults at each `step`th tick
/// (docs/FORMATS.md, "Commands"). A grid that is too large is refused.
pub fn input_swept<S: Store>(
    alloc: Global,
    run: NamedRun<'_>,
    step: u32,
    store: &mut S,
) -> Result<RunInput, End>
    requires step { 1 ≤ step }
    ensures comes { SweptComes run.entry.campaign.now run.entry.name.now step
        (change_of S.shows store.old store.new) (outcomes result) }
    ensures sweepable { IfOk result (IsSweepable step) }
    ensures campaign { ReadsCampaign run.entry.campaign.now (change_of S.shows store.old store.new) result }
{
    match input_named(alloc, run, store) {
        Ok(input) => within_grid(input, step),
        Err(end) => Err(end),
    }
}

/// This input, unless the grid over its drive is too large.
fn within_grid(input: RunInput, step: u32) -> Result<RunInput, End>
    requires playable { IsPlayable input }
    requires step { 1 ≤ step }
    ensures comes { (store : ShownStore) →
        GridComes (is_too_large (length input.drive) step) (change store store) input (outcomes result) }
    ensures sweepable { IfOk result (IsSweepable step) }
    ensures refused { IfErr result (λ end. (end.outcome ≡ Refused Grid) × (end.file ≡ None)) }
{
    if is_too_large(input.drive.as_slice().len() as u32, step) {
        return Err(End::of(Outcome::Refused(Refusal::Grid)));
    }
    Ok(input)
}

/// What the run of that name is made of besides its drive: the campaign is read, and then the image of this
/// run alone (docs/FORMATS.md, "Outcomes"). Its trace isn't read.
pub fn undriven_named<S: Store>(
    alloc: Global,
    run: NamedRun<'_>,
    store: &mut S,
) -> Result<RunInput, End>
    ensures comes { UndrivenComes run.entry.campaign.now run.entry.name.now
        (change_of S.shows store.old store.new) (outcomes result) }
    ensures fault { IfOk result (λ input. IsNoneOrValid input.plan.fault) }
    ensures image { IfOk result (λ input. length input.image ≤ MOST_WORDS) }
    ensures campaign { ReadsCampaign run.entry.campaign.now (change_of S.shows store.old store.new) result }
{
    match plan_named(alloc, run, store) {
        Ok((number, plan)) => undriven_for(alloc, number, plan, store),
        Err(end) => Err(end),
    }
}

/// The number and the plan of the run of that name: the campaign is read.
fn plan_named<S: Store>(
    alloc: Global,
    run: NamedRun<'_>,
    store: &mut S,
) -> Result<(u32, RunPlan), End>
    ensures found { IfOk result (λ found.
        FindsNamed run.entry.campaign.now run.entry.name.now (S.shows store.old) found) }
    ensures fault { IfOk result (λ found. IsNoneOrValid found.1.fault) }
    ensures input_ends { IfErr result (λ end. NamedComes run.entry.campaign.now run.entry.name.now
        (change_of S.shows store.old store.new) (Err end.outcome)) }
    ensures undriven_ends { IfErr result (λ end. UndrivenComes run.entry.campaign.now run.entry.name.now
        (change_of S.shows store.old store.new) (Err end.outcome)) }
    ensures campaign { ReadsCampaign run.entry.campaign.now (change_of S.shows store.old store.new) result }
{
    match campaign_for(alloc, run.campaign, store) {
        Ok(plans) => plan_among(plans, run.name),
        Err(outcome) => Err(End::of(outcome)),
    }
}

/// The number and the plan of the first of these runs that has this name.
fn plan_among(plans: Items<RunPlan>, name: &str) -> Result<(u32, RunPlan), End>
    requires rules { AreRuns plans }
    ensures found { IfOk result (λ found. run_named name.now 1 plans ≡ Some found) }
    ensures fault { IfOk result (λ found. IsNoneOrValid found.1.fault) }
    ensures none { IfErr result (λ end. run_named name.now 1 plans ≡ None) }
    ensures no_run { IfErr result (λ end. (end.outcome ≡ Refused NoRun) × (end.file ≡ None)) }
{
    let mut number = 1;
    for plan in plans.into_vec() {
        if has_name(&plan, name) {
            return Ok((number, plan));
        }
        number += 1;
    }
    Err(End::of(Outcome::Refused(Refusal::NoRun)))
}

/// Whether a run has this name.
fn has_name(plan: &RunPlan, name: &str) -> bool
    ensures { result ≡ bytes_eq plan.now.name name.now }
{
    plan.name.as_str() == name
}
