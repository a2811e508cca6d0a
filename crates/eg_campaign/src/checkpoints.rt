// The run without a fault of a group, and runs under faults that go on from it.
ghost use Rattle.std.specs.Prelude.{◌≡◌, ℕ, ◌+◌, ◌*◌, ◌%◌, ◌/◌, ◌≤◌, ◌<◌, Bool, List, slice_index_or, false, None, length, reverse, IfOk, OnOk, IsTrue};
ghost use Rattle.std.specs.Option.{option_copied};
ghost use Rattle.eg_fault.specs.Faults.{IsNoneOrValid};
ghost use Rattle.eg_model.specs.Bench.{Run};
ghost use Rattle.eg_model.specs.Branching.{BeginsFrom};
ghost use Rattle.eg_model.specs.Rows.{record_rows};
ghost use Rattle.eg_tick.specs.Weights.{TickCount};
ghost use Rattle.eg_tick.specs.Facts.{IsToldOf};
ghost use Rattle.eg_tick.specs.Counting.{count_with, AreCounted};
ghost use Rattle.eg_plan.specs.Playable.{IsPlayable};
ghost use Rattle.eg_campaign.specs.Plays.{IsPlayed, run_with};
ghost use Rattle.eg_campaign.specs.Groups.{faultless, checkpoint_ticks, input_under, own_on};
ghost use Rattle.eg_campaign.specs.Inner.Checkpoints.{run_under, PlaysInput, HasPlayed, HasMade, AreCheckpoints, IsSharedFor, IsWantedFor};

use crate::counting::count_none;
use crate::wanted::{Wanted, is_wanted};
use eg_base::NoMemory;
use eg_fault::Fault;
use eg_guard::{CopyMemory, FlatMemory, Guarded};
use eg_pages::PagedMemory;
use eg_plan::RunInput;
use eg_plant::CopyEngine;
use eg_record::{MarginTally, RunFacts, Tally};
use eg_tick::{
    BenchedEngine, Controller, Ticks, bench_controller, bench_restart, bench_row, weigh,
};
use eg_values::Calibration;
use std::alloc::Global;

/// How many ticks after one checkpoint of the run without a fault the next one comes. The first is at tick 0
/// (docs/CONCEPT.md, "The record of a run").
pub(crate) const CHECKPOINT_TICKS: usize = 100;

/// What was played of a run, up to a tick: the controller that goes on with it, and the tallies of its rows.
#[derive(Drop)]
pub(crate) struct Played<E: BenchedEngine + CopyEngine, M: Guarded + Drop> {
    controller: Controller<E, M>,
    tally: Tally,
    margins: MarginTally,
}

/// Where runs of an engine are played, one after another: what was played of the last one.
pub(crate) type Bench<E> = Played<E, FlatMemory>;

/// What is kept of a run: its memory is in pages, so that what stays the same is meant to be kept once.
pub(crate) type Checkpoint<E> = Played<E, PagedMemory>;

/// The run without a fault of a group: what is told of it, and where runs under faults go on from.
#[derive(Drop)]
pub(crate) struct Shared<E: BenchedEngine + CopyEngine> {
    pub(crate) checkpoints: Vec<Option<Box<Checkpoint<E>>>>,
    pub(crate) wanted: Wanted,
    pub(crate) told: RunFacts,
}

/// A bench on which no run was played yet, for runs of this calibration.
#[inline(never)]
pub(crate) fn bench<E: BenchedEngine + CopyEngine>(calibration: &Calibration) -> Bench<E>
    ensures { result.controller.kept.cal ≡ calibration.now }
{
    let rules = calibration.rules();
    let none: [u16; 0] = [];
    Played {
        controller: bench_controller::<E>(calibration, &none, None),
        tally: Tally::new(rules.threshold, rules.torque),
        margins: MarginTally::new(),
    }
}

/// Plays the run of an input that is alone on this bench, and tells of it. The ticks are counted in `steps`.
/// It takes no memory and refuses nothing.
#[inline(never)]
pub(crate) fn play_alone<E: BenchedEngine + CopyEngine, const WEIGHED: bool>(
    played: &mut Bench<E>,
    calibration: &Calibration,
    input: &RunInput,
    steps: &mut Ticks,
) -> RunFacts
    requires playable { IsPlayable input.now }
    requires bench { played.old.controller.kept.cal ≡ calibration.now }
    ensures told { IsPlayed WEIGHED E.bench (run_with calibration.now input.now).run
        steps.old steps.new result }
    ensures bench { played.new.controller.kept.cal ≡ calibration.now }
{
    let fault = input.plan.fault.as_ref();
    begin(played, calibration, input, fault);
    play_on::<E, WEIGHED>(played, input, 0, steps);
    told_so_far(played)
}

/// Plays the run of an input without its fault on this bench, and keeps it at each hundredth tick that is
/// wanted, but for the first: up to its onset a run under a fault is the run without one (docs/CONCEPT.md,
/// "Faults"). The ticks are counted in `steps`. NoMemory is its one refusal. Where the run is `WEIGHED`, it
/// tells how near it came to a cut.
#[inline(never)]
pub(crate) fn share<E: BenchedEngine + CopyEngine, const WEIGHED: bool>(
    alloc: Global,
    played: &mut Bench<E>,
    calibration: &Calibration,
    input: &RunInput,
    wanted: &Wanted,
    steps: &mut Ticks,
) -> Result<Shared<E>, NoMemory>
    requires playable { IsPlayable input.now }
    requires bench { played.old.controller.kept.cal ≡ calibration.now }
    ensures shared { IfOk result (IsSharedFor WEIGHED E.bench E.come_to calibration.now input.now) }
    ensures wanted { IfOk result (λ shared. shared.wanted ≡ wanted.now) }
    ensures counted { AreCounted
        (reverse (record_rows E.bench (run_with calibration.now (faultless input.now)).run))
        steps.old steps.new result }
    ensures bench { OnOk result (played.new.controller.kept.cal ≡ calibration.now) }
{
    // Called for its clause alone.
    count_none(steps);
    let mut last = PagedMemory::new(alloc)?;
    let mut checkpoints = Vec::new(alloc);
    begin(played, calibration, input, None);
    for tick in 0..input.drive.as_slice().len() {
        keep(alloc, wanted, &mut checkpoints, &mut last, played, tick)?;
        play_row::<E, WEIGHED>(played, input, tick, steps);
    }
    Ok(Shared {
        checkpoints,
        wanted: *wanted,
        told: told_so_far(played),
    })
}

/// Begins the run of an input under this fault in place of its own: no tick of it is played yet.
fn begin<E: BenchedEngine + CopyEngine>(
    played: &mut Bench<E>,
    calibration: &Calibration,
    input: &RunInput,
    fault: Option<&Fault>,
)
    requires playable { IsPlayable input.now }
    requires valid { IsNoneOrValid (option_copied fault) }
    requires bench { played.old.controller.kept.cal ≡ calibration.now }
    ensures begun { (weighed : Bool) → HasPlayed weighed E.bench E.come_to
        (run_with calibration.now (input_under (option_copied fault.entry) input.now)).run 0 played.new }
    ensures sure { IsTrue played.new.controller.kept.memory.sure }
{
    let rules = calibration.rules();
    let tally = Tally::new(rules.threshold, rules.torque);
    let margins = MarginTally::new();
    let image = input.image.as_slice();
    bench_restart::<E>(&mut played.controller, calibration, image, fault);
    (played.tally, played.margins) = (tally, margins);
}

/// Keeps what was played where the next tick is a hundredth at which that is wanted, but the first.
fn keep<E: BenchedEngine + CopyEngine>(
    alloc: Global,
    wanted: &Wanted,
    kept: &mut Vec<Option<Box<Checkpoint<E>>>>,
    last: &mut PagedMemory,
    played: &Bench<E>,
    tick: usize,
) -> Result<(), NoMemory>
    requires { played.now.controller.kept.fault ≡ None }
    ensures { (weighed : Bool) (r : Run) → HasPlayed weighed E.bench E.come_to r tick played.now →
        AreCheckpoints weighed E.bench E.come_to r wanted.now tick kept.old.items →
        OnOk result (AreCheckpoints weighed E.bench E.come_to r wanted.now (tick + 1) kept.new.items) }
{
    if tick == 0 {
        return keep_none(kept);
    }
    if tick % CHECKPOINT_TICKS != 0 {
        return Ok(());
    }
    if is_wanted(wanted, tick / CHECKPOINT_TICKS) {
        keep_copy(alloc, kept, last, played)
    } else {
        keep_none(kept)
    }
}

/// Keeps nothing at a hundredth tick.
fn keep_none<E: BenchedEngine + CopyEngine>(
    kept: &mut Vec<Option<Box<Checkpoint<E>>>>,
) -> Result<(), NoMemory>
    ensures { (weighed : Bool) (r : Run) (wanted : List Bool) (t : ℕ) → t % checkpoint_ticks ≡ 0 →
        (1 ≤ t → slice_index_or wanted (t / checkpoint_ticks) false ≡ false) →
        AreCheckpoints weighed E.bench E.come_to r wanted t kept.old.items →
        OnOk result (AreCheckpoints weighed E.bench E.come_to r wanted (t + 1) kept.new.items) }
{
    kept.push(None)?;
    Ok(())
}

/// Keeps what was played. The pages of its memory that are the same as in the last copy are meant to be
/// shared with that. It isn't inlined, so that its large locals are set to 0 at a hundredth tick alone.
#[inline(never)]
fn keep_copy<E: BenchedEngine + CopyEngine>(
    alloc: Global,
    kept: &mut Vec<Option<Box<Checkpoint<E>>>>,
    last: &mut PagedMemory,
    played: &Bench<E>,
) -> Result<(), NoMemory>
    requires { played.now.controller.kept.fault ≡ None }
    ensures { (weighed : Bool) (r : Run) (wanted : List Bool) (t : ℕ) → t % checkpoint_ticks ≡ 0 →
        HasPlayed weighed E.bench E.come_to r t played.now →
        AreCheckpoints weighed E.bench E.come_to r wanted t kept.old.items →
        OnOk result (AreCheckpoints weighed E.bench E.come_to r wanted (t + 1) kept.new.items) }
{
    *last = PagedMemory::like(alloc, played.controller.memory(), last)?;
    let memory = last.copy(alloc)?;
    let (tally, margins) = (played.tally, played.margins);
    let one = Box::new(
        alloc,
        Played {
            controller: played.controller.branch_over(memory, None),
            tally,
            margins,
        },
    )?;
    kept.push(Some(one))?;
    Ok(())
}

/// Goes on under this fault from where a run without one was kept. The pages of its memory are copied once
/// into one array, so that each tick takes less time. It takes no memory and refuses nothing.
fn go_on<E: BenchedEngine + CopyEngine>(
    kept: &Checkpoint<E>,
    fault: Option<Fault>,
) -> Played<E, FlatMemory>
    requires none { kept.now.controller.kept.fault ≡ None }
    requires valid { IsNoneOrValid fault }
    requires onset { BeginsFrom kept.now.controller.kept.ticks fault }
    requires held { kept.now.controller.kept.lost ≡ false }
    ensures played { (weighed : Bool) (r : Run) (t : ℕ) → HasPlayed weighed E.bench E.come_to r t kept.now →
        HasPlayed weighed E.bench E.come_to (run_under fault r) t result }
    ensures sure { IsTrue result.controller.kept.memory.sure }
{
    let memory = kept.controller.memory().flat();
    Played {
        controller: kept.controller.branch_over(memory, fault),
        tally: kept.tally,
        margins: kept.margins,
    }
}

/// Begins the run of an input of the group under this fault in place of its own: at its beginning, or at the
/// last checkpoint that isn't after the onset.
fn begin_from<E: BenchedEngine + CopyEngine, const WEIGHED: bool>(
    shared: &Shared<E>,
    played: &mut Bench<E>,
    calibration: &Calibration,
    input: &RunInput,
    fault: &Fault,
)
    requires playable { IsPlayable input.now }
    requires valid { IsNoneOrValid (Some fault.now) }
    requires wanted { IsWantedFor shared.now.wanted (Some fault.now) }
    requires within { fault.now.onset < length input.now.drive }
    requires shared { IsSharedFor WEIGHED E.bench E.come_to calibration.now input.now shared.now }
    requires bench { played.old.controller.kept.cal ≡ calibration.now }
    ensures begun { HasPlayed WEIGHED E.bench E.come_to
        (run_with calibration.now (input_under (Some fault.now) input.now)).run
        (fault.now.onset / checkpoint_ticks * checkpoint_ticks) played.new }
    ensures sure { IsTrue played.new.controller.kept.memory.sure }
{
    let index = fault.onset as usize / CHECKPOINT_TICKS;
    if index == 0 {
        begin(played, calibration, input, Some(fault));
        return;
    }
    let Some(kept) = &shared.checkpoints[index] else {
        unreachable!("it is wanted")
    };
    *played = go_on(&**kept, Some(fault.copy()));
}

/// Plays the run of an input of the group under this fault in place of its own: from the last hundredth tick
/// on that isn't after the onset. If there is no fault, or one that begins after the run, nothing is played,
/// and what is told is what the run without a fault tells. The ticks are counted in `steps`. It takes no
/// memory and refuses nothing.
#[inline(never)]
pub(crate) fn play_from<E: BenchedEngine + CopyEngine, const WEIGHED: bool>(
    shared: &Shared<E>,
    played: &mut Bench<E>,
    calibration: &Calibration,
    input: &RunInput,
    fault: Option<&Fault>,
    steps: &mut Ticks,
) -> RunFacts
    requires playable { IsPlayable input.now }
    requires valid { IsNoneOrValid (option_copied fault) }
    requires wanted { IsWantedFor shared.now.wanted (option_copied fault) }
    requires shared { IsSharedFor WEIGHED E.bench E.come_to calibration.now input.now shared.now }
    requires bench { played.old.controller.kept.cal ≡ calibration.now }
    ensures told { IsToldOf WEIGHED E.bench
        (run_with calibration.now (input_under (option_copied fault.entry) input.now)).run result }
    ensures counted { steps.new ≡ count_with steps.old
        (own_on E.bench calibration.now (input_under (option_copied fault.entry) input.now)) }
    ensures bench { played.new.controller.kept.cal ≡ calibration.now }
{
    // Called for its clause alone.
    count_none(steps);
    let Some(fault) = fault else {
        return shared.told;
    };
    if fault.onset as usize >= input.drive.as_slice().len() {
        return shared.told;
    }
    begin_from::<E, WEIGHED>(shared, played, calibration, input, fault);
    let from = fault.onset as usize / CHECKPOINT_TICKS * CHECKPOINT_TICKS;
    play_on::<E, WEIGHED>(played, input, from, steps);
    told_so_far(played)
}

/// What is told of a run that was played to its end.
fn told_so_far<E: BenchedEngine + CopyEngine, M: Guarded + Drop>(played: &Played<E, M>) -> RunFacts
    ensures { (weighed : Bool) (r : Run) → HasPlayed weighed E.bench E.come_to r (length r.drive) played.now →
        IsToldOf weighed E.bench r result }
{
    RunFacts {
        facts: played.tally.facts(),
        reactions: played.tally.reactions(),
        margins: played.margins.margins(),
        trap: played.controller.trap(),
    }
}

/// Plays the ticks of the run of an input from tick `from` on, to its end.
fn play_on<E: BenchedEngine + CopyEngine, const WEIGHED: bool>(
    played: &mut Bench<E>,
    input: &RunInput,
    from: usize,
    steps: &mut Ticks,
)
    requires playable { IsPlayable input.now }
    requires within { from ≤ length input.now.drive }
    requires sure { IsTrue played.old.controller.kept.memory.sure }
    requires run { (r : Run) × PlaysInput input.now r
        × HasPlayed WEIGHED E.bench E.come_to r from played.old }
    ensures { (r : Run) → PlaysInput input.now r → HasPlayed WEIGHED E.bench E.come_to r from played.old →
        HasMade WEIGHED E.bench E.come_to r from (length r.drive) played.new steps.old steps.new }
{
    // Called for its clause alone.
    count_none(steps);
    for tick in from..input.drive.as_slice().len() {
        play_row::<E, WEIGHED>(played, input, tick, steps);
    }
}

/// Plays the next tick of the run of an input.
#[inline(always)]
fn play_row<E: BenchedEngine + CopyEngine, const WEIGHED: bool>(
    played: &mut Bench<E>,
    input: &RunInput,
    tick: usize,
    steps: &mut Ticks,
)
    requires playable { IsPlayable input.now }
    requires within { tick < length input.now.drive }
    requires sure { IsTrue played.old.controller.kept.memory.sure }
    requires run { (r : Run) × PlaysInput input.now r
        × HasPlayed WEIGHED E.bench E.come_to r tick played.old }
    ensures made { (r : Run) (from : ℕ) (was : TickCount) → PlaysInput input.now r →
        HasMade WEIGHED E.bench E.come_to r from tick played.old was steps.old →
        HasMade WEIGHED E.bench E.come_to r from (tick + 1) played.new was steps.new }
    ensures stays_sure { IsTrue played.new.controller.kept.memory.sure }
{
    let (plan, drive) = (&input.plan.slices, &input.drive.as_slice()[tick]);
    let row = bench_row(&mut played.controller, plan, drive, tick as u32, steps);
    played.tally.feed(&row);
    weigh::<E, FlatMemory, WEIGHED>(&mut played.margins, &row, &played.controller);
}
