// The runs of a campaign, played group by group.
ghost use Rattle.std.specs.Prelude.{◌≡◌, All, map, replicate, IfOk, None};
ghost use Rattle.eg_record.specs.declared.run_facts.RunFacts.{RunFacts};
ghost use Rattle.eg_plan.specs.Playable.{IsPlayable};
ghost use Rattle.eg_campaign.specs.Plays.{report_with};
ghost use Rattle.eg_campaign.specs.Groups.{AreTold, rows_made, told_by, told_with, facts_by};

use crate::counting::count_none;
use crate::groups::Group;
use crate::kinds::{Benches, play_first};
use crate::leading::{counts_led, leaders};
use eg_answer::reaction;
use eg_base::NoMemory;
use eg_plan::RunInput;
use eg_record::{Facts, MarginTally, RunFacts, Summary, Tally};
use eg_tick::Ticks;
use eg_values::Calibration;
use std::alloc::Global;

/// Plays the runs of a campaign, and tells of each what the report says (docs/CONCEPT.md, "The report of a
/// run"). Runs of one drive, one image, one slice plan and one engine share what comes before their faults.
/// The ticks that are made are counted in `steps`. NoMemory is its one refusal.
#[tactic(auto, using(eg_tick::proofs::CountLemmas::counted_all))]
pub fn run_all(
    alloc: Global,
    calibration: &Calibration,
    inputs: &[RunInput],
    steps: &mut Ticks,
) -> Result<Vec<Summary>, NoMemory>
    requires { All IsPlayable inputs.now }
    ensures { AreTold (report_with calibration.now) inputs.now (rows_made calibration.now inputs.now)
        steps.old steps.new result }
{
    let told = told_all::<false>(alloc, calibration, inputs, steps)?;
    summaries_of(alloc, calibration, inputs, &told)
}

/// Plays the runs of a campaign as `run_all` does, and tells the facts of each (docs/CONCEPT.md, "The report
/// of a run"). The ticks that are made are counted in `steps`. NoMemory is its one refusal.
pub fn facts_all(
    alloc: Global,
    calibration: &Calibration,
    inputs: &[RunInput],
    steps: &mut Ticks,
) -> Result<Vec<Facts>, NoMemory>
    requires { All IsPlayable inputs.now }
    ensures { AreTold (facts_by calibration.now) inputs.now (rows_made calibration.now inputs.now)
        steps.old steps.new result }
{
    let told = told_all::<false>(alloc, calibration, inputs, steps)?;
    facts_of_all(alloc, &told)
}

/// Plays the runs of a campaign as `run_all` does, and tells of each its facts, the reactions in its spans,
/// its trap, and where they are `WEIGHED` how near it came to a cut (docs/CONCEPT.md, "The report of a run",
/// "`table`" and "`margins`"). The ticks that are made are counted in `steps`. NoMemory is its one refusal.
#[inline(never)]
pub fn told_all<const WEIGHED: bool>(
    alloc: Global,
    calibration: &Calibration,
    inputs: &[RunInput],
    steps: &mut Ticks,
) -> Result<Vec<RunFacts>, NoMemory>
    requires { All IsPlayable inputs.now }
    ensures { AreTold (told_by WEIGHED calibration.now) inputs.now (rows_made calibration.now inputs.now)
        steps.old steps.new result }
{
    // Called for its clause alone.
    count_none(steps);
    let leaders = leaders(alloc, inputs)?;
    let counts = counts_led(alloc, &leaders)?;
    let mut told = untold(alloc, calibration, inputs.len())?;
    let mut benches = Benches::new(calibration);
    for i in 0..inputs.len() {
        if leaders[i] != i {
            continue;
        }
        let group = Group {
            leaders: &leaders,
            index: i,
            size: counts[i],
        };
        play_first::<WEIGHED>(
            alloc,
            &mut benches,
            calibration,
            inputs,
            group,
            &mut told,
            steps,
        )?;
    }
    Ok(told)
}

/// Places for what `count` runs tell. Until its group is played, what a run of no ticks tells stands at each.
fn untold(alloc: Global, calibration: &Calibration, count: usize) -> Result<Vec<RunFacts>, NoMemory>
    ensures { IfOk result (λ told. (none : RunFacts) × (told.items ≡ replicate count none)) }
{
    let rules = calibration.rules();
    let tally = Tally::new(rules.threshold, rules.torque);
    let none = RunFacts {
        facts: tally.facts(),
        reactions: tally.reactions(),
        margins: MarginTally::new().margins(),
        trap: None,
    };
    Ok(vec![in alloc; none; count]?)
}

/// What the report says of each run of which this is told.
fn summaries_of(
    alloc: Global,
    calibration: &Calibration,
    inputs: &[RunInput],
    told: &[RunFacts],
) -> Result<Vec<Summary>, NoMemory>
    requires { told.now ≡ map (told_with calibration.now) inputs.now }
    ensures { IfOk result (λ all. all.items ≡ map (report_with calibration.now) inputs.now) }
{
    let mut summaries = Vec::new(alloc);
    for i in 0..inputs.len() {
        let summary = report_one(alloc, calibration, &inputs[i], &told[i])?;
        summaries.push(summary)?;
    }
    Ok(summaries)
}

/// What the report says of a run of which this is told.
fn report_one(
    alloc: Global,
    calibration: &Calibration,
    input: &RunInput,
    told: &RunFacts,
) -> Result<Summary, NoMemory>
    requires { told.now ≡ told_with calibration.now input.now }
    ensures { IfOk result (λ summary. summary ≡ report_with calibration.now input.now) }
{
    let name = input.plan.name.as_str();
    told.facts
        .summary(alloc, name, told.trap, reaction(calibration.times()))
}

/// The facts of runs of which this is told.
fn facts_of_all(alloc: Global, told: &[RunFacts]) -> Result<Vec<Facts>, NoMemory>
    ensures { IfOk result (λ facts. facts.items ≡ map (λ one. one.facts) told.now) }
{
    let mut facts = Vec::new(alloc);
    for one in told {
        facts.push(one.facts)?;
    }
    Ok(facts)
}
