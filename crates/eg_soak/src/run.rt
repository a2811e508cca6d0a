// The facts of a run on the bench.
ghost use Rattle.std.specs.Prelude.{◌≡◌, ◌≤◌, None, IsTrue, length, reverse};
ghost use Rattle.std.specs.Option.{option_copied};
ghost use Rattle.eg_guard.specs.declared.regions.TheConstants.{DATA as CODE_END};
ghost use Rattle.eg_answer.specs.Times.{reaction_of};
ghost use Rattle.eg_fault.specs.Faults.{IsListed, IsNoneOrValid};
ghost use Rattle.eg_model.specs.Engines.{gasoline};
ghost use Rattle.eg_model.specs.Bench.{Run};
ghost use Rattle.eg_model.specs.Rows.{record_rows, record_trap};
ghost use Rattle.eg_record.specs.Facts.{facts_of};
ghost use Rattle.eg_tick.specs.Counting.{count_with};
ghost use Rattle.eg_tick.specs.Run.{run_by, IsAt};
ghost use Rattle.eg_tick.specs.Facts.{IsToldOf, IsWithoutReset, FactsReactWithin, FactsReactAtOnce, GoOffOnce};

use eg_answer::Rules;
use eg_fault::Fault;
use eg_guard::FlatMemory;
use eg_num::Drive;
use eg_plant::GasolineEngine;
use eg_record::{Facts, MarginTally, RunFacts, Tally};
use eg_tick::{BenchedEngine, Controller, SlicePlan, Ticks, bench_controller, bench_row, weigh};
use eg_values::Calibration;
use eg_word::Trap;

/// Runs a gasoline engine of the calibration's plant from rest on the bench, one tick for each drive row, and
/// tells the facts of the rows, and level 1's trap with the tick at which it came, if any (docs/CONCEPT.md,
/// "A run, tick by tick" and "The report of a run"). The ticks are counted in `steps`. It keeps no row, takes
/// no memory and refuses nothing.
///
/// Facts know no full-efficiency excess, so they can't say at which tick the sharp cut comes, and not where
/// an excess stands, so they say nothing of lapses. `eg_tick::run_one` does.
pub fn run_facts(
    calibration: &Calibration,
    image: &[u16],
    plan: &SlicePlan,
    drive: &[Drive],
    fault: Option<&Fault>,
    steps: &mut Ticks,
) -> (Facts, Option<(Trap, u32)>)
    requires some { 1 ≤ length drive.now }
    requires most { length drive.now ≤ 20000 }
    requires image { length image.now ≤ CODE_END }
    requires fault { IsNoneOrValid (option_copied fault) }
    // They are those of the record of the run in the model.
    ensures facts { result.0 ≡ facts_of calibration.now.rules.torque calibration.now.rules.threshold
        (record_rows gasoline
        (run_by calibration.now image.now (option_copied fault.entry) plan.now drive.now)) }
    ensures trap { result.1 ≡ record_trap gasoline
        (run_by calibration.now image.now (option_copied fault.entry) plan.now drive.now) }
    // The reaction theorem, where the drive never resets the unit: the stages are off in time after a
    // confirmed torque excess, and under most faults at once.
    ensures reacts { IsListed (option_copied fault.entry) → IsWithoutReset drive.now →
        FactsReactWithin (reaction_of calibration.now.times) result.0 }
    ensures at_once { IsListed (option_copied fault.entry) → IsWithoutReset drive.now →
        FactsReactAtOnce (option_copied fault.entry) result.0 }
    // Without a fault they go off once at most.
    ensures once { option_copied fault.entry ≡ None → IsWithoutReset drive.now → GoOffOnce result.0 }
    // Each tick is counted, and each row of the record is weighed.
    ensures counted { steps.new ≡ count_with steps.old (reverse (record_rows gasoline
        (run_by calibration.now image.now (option_copied fault.entry) plan.now drive.now))) }
{
    // Called for its clause alone: the calibration is an accepted one.
    let _rules = calibration.rules();
    let told = bench_facts::<GasolineEngine, false>(calibration, image, plan, drive, fault, steps);
    (told.facts, told.trap)
}

/// Runs an engine of either kind, which the caller names by its type, as `run_facts` runs a gasoline engine.
/// It tells the facts of the run, the reactions in its spans, its trap, and, where it is `WEIGHED`, how near
/// it came to a cut (docs/CONCEPT.md, "The report of a run", "`table`" and "`margins`"), keeps no row, takes
/// no memory and refuses nothing. That the facts show a reaction in time is a clause of `run_facts` alone. Of
/// either engine `eg_laws::spans_react_in_time` says it by the reactions, and the headline by the rows.
#[inline(never)]
fn bench_facts<E: BenchedEngine, const WEIGHED: bool>(
    calibration: &Calibration,
    image: &[u16],
    plan: &SlicePlan,
    drive: &[Drive],
    fault: Option<&Fault>,
    steps: &mut Ticks,
) -> RunFacts
    requires most { length drive.now ≤ 20000 }
    requires image { length image.now ≤ CODE_END }
    requires fault { IsNoneOrValid (option_copied fault) }
    ensures told { IsToldOf WEIGHED E.bench
        (run_by calibration.now image.now (option_copied fault.entry) plan.now drive.now) result }
    ensures counted { steps.new ≡ count_with steps.old (reverse (record_rows E.bench
        (run_by calibration.now image.now (option_copied fault.entry) plan.now drive.now))) }
{
    let rules = calibration.rules();
    let mut controller = bench_controller::<E>(calibration, image, fault);
    facts_by::<E, WEIGHED>(&mut controller, rules, plan, drive, steps)
}

/// Runs a drive by a controller that has made no tick, and tells of the run.
#[inline(never)]
fn facts_by<E: BenchedEngine, const WEIGHED: bool>(
    controller: &mut Controller<E, FlatMemory>,
    rules: &Rules,
    plan: &SlicePlan,
    drive: &[Drive],
    steps: &mut Ticks,
) -> RunFacts
    requires most { length drive.now ≤ 20000 }
    requires none { controller.old.kept.ticks ≡ 0 }
    requires sure { IsTrue controller.old.kept.memory.sure }
    requires run { (r : Run) × (r.plan ≡ plan.now) × (r.drive ≡ drive.now)
        × IsAt E.bench E.come_to r 0 controller.old }
    ensures told { (r : Run) → r.plan ≡ plan.now → r.drive ≡ drive.now → r.setting.cal.rules ≡ rules.now →
        IsAt E.bench E.come_to r 0 controller.old → IsToldOf WEIGHED E.bench r result }
    ensures counted { (r : Run) → r.plan ≡ plan.now → r.drive ≡ drive.now →
        IsAt E.bench E.come_to r 0 controller.old →
        steps.new ≡ count_with steps.old (reverse (record_rows E.bench r)) }
{
    // Called for its clause alone: both numbers are a u64.
    let _numbers = (steps.count(), steps.sum());
    let mut tally = Tally::new(rules.threshold, rules.torque);
    let mut margins = MarginTally::new();
    for tick in 0..drive.len() {
        let row = bench_row(controller, plan, &drive[tick], tick as u32, steps);
        tally.feed(&row);
        weigh::<E, FlatMemory, WEIGHED>(&mut margins, &row, controller);
    }
    RunFacts {
        facts: tally.facts(),
        reactions: tally.reactions(),
        margins: margins.margins(),
        trap: controller.trap(),
    }
}
