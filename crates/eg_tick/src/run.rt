// A run of a gasoline engine on the bench.
ghost use Rattle.std.specs.Prelude.{◌≡◌, ◌≤◌, ◌<◌, None, All, reverse, length, IfOk, OnOk, OnErr, IsTrue};
ghost use Rattle.std.specs.Option.{option_copied};
ghost use Rattle.eg_guard.specs.declared.regions.TheConstants.{DATA as CODE_END};
ghost use Rattle.eg_answer.specs.Times.{reaction_of, test_ticks_of};
ghost use Rattle.eg_values.specs.Excess.{BoundsLapses};
ghost use Rattle.eg_fault.specs.Faults.{IsListed, IsNoneOrValid};
ghost use Rattle.eg_record.specs.Rows.{AreRows};
ghost use Rattle.eg_record.specs.Spans.{EachDriveSpan, EachTestSpan};
ghost use Rattle.eg_model.specs.Engines.{gasoline};
ghost use Rattle.eg_model.specs.Bench.{Run};
ghost use Rattle.eg_model.specs.Rows.{record_rows, record_trap};
ghost use Rattle.eg_model.specs.PowerCycles.{SpansBeginInTurn};
ghost use Rattle.eg_model.specs.Records.{rows_to, ReactWithin, CutOneTickAfter, RowsReactAtOnce, CutStandingExcess, ExcessIsShort, AreOff, NeverFails};
ghost use Rattle.eg_model.specs.Lapses.{IsLapse};
ghost use Rattle.eg_tick.specs.Counting.{count_with};
ghost use Rattle.eg_tick.specs.Benched.{gasoline_of};
ghost use Rattle.eg_tick.specs.Run.{run_by, IsAt, IsRecordOf};

use crate::{Controller, SlicePlan, Ticks, bench_controller, bench_row};
use eg_base::{Items, NoMemory};
use eg_fault::Fault;
use eg_guard::FlatMemory;
use eg_num::Drive;
use eg_plant::GasolineEngine;
use eg_record::Row;
use eg_values::Calibration;
use eg_word::Trap;
use std::alloc::Global;

/// The record of a run (docs/CONCEPT.md, "The record of a run").
#[derive(Drop)]
pub struct RunRecord {
    /// Its rows, in the order of time.
    pub rows: Items<Row>,
    /// Level 1's trap, with the tick at which it came, if any.
    pub trap: Option<(Trap, u32)>,
}

/// Runs a gasoline engine of the calibration's plant from rest on the bench, one tick for each drive row
/// (docs/CONCEPT.md, "A run, tick by tick" and "The record of a run"). The ticks are counted in `steps`.
/// NoMemory is its one refusal: room for all rows is taken before the first tick, and where there is none, no
/// tick is made.
pub fn run_one(
    alloc: Global,
    calibration: &Calibration,
    image: &[u16],
    plan: &SlicePlan,
    drive: &[Drive],
    fault: Option<&Fault>,
    steps: &mut Ticks,
) -> Result<RunRecord, NoMemory>
    requires some { 1 ≤ length drive.now }
    requires most { length drive.now ≤ 20000 }
    requires image { length image.now ≤ CODE_END }
    requires fault { IsNoneOrValid (option_copied fault) }
    // The record is that of the run in the model.
    ensures rows { IfOk result (λ made. made.rows ≡ reverse (record_rows gasoline
        (run_by calibration.now image.now (option_copied fault.entry) plan.now drive.now))) }
    ensures trap { IfOk result (λ made. made.trap ≡ record_trap gasoline
        (run_by calibration.now image.now (option_copied fault.entry) plan.now drive.now)) }
    // Its ticks are numbered from 0 on, so that `eg_record::summarize` takes its rows.
    ensures numbered { IfOk result (λ made. AreRows (reverse made.rows)) }
    // The reaction theorem: in each drive span the stages are off in time after a confirmed torque excess,
    // and under most faults at once.
    ensures reacts { IsListed (option_copied fault.entry) → IfOk result (λ made.
        EachDriveSpan (ReactWithin (reaction_of calibration.now.times) calibration.now.rules.torque
        calibration.now.rules.threshold) (reverse made.rows)) }
    ensures at_once { IsListed (option_copied fault.entry) → IfOk result (λ made.
        EachDriveSpan (RowsReactAtOnce (option_copied fault.entry) calibration.now.rules.torque
        calibration.now.rules.threshold) (reverse made.rows)) }
    // Without a fault they are cut off exactly one tick after the full-efficiency excess is confirmed.
    ensures cuts { option_copied fault.entry ≡ None → IfOk result (λ made.
        EachDriveSpan (CutOneTickAfter calibration.now.rules.torque calibration.now.rules.kt
        calibration.now.rules.threshold) (reverse made.rows)) }
    // Under lapses excess that stands is cut, and each stretch of excess is shorter than the bound for
    // lapses.
    ensures lapses { BoundsLapses calibration.now →
        IsLapse (option_copied fault.entry) → IfOk result (λ made.
        EachDriveSpan (CutStandingExcess calibration.now) (reverse made.rows)) }
    ensures short { BoundsLapses calibration.now →
        IsLapse (option_copied fault.entry) → IfOk result (λ made.
        EachDriveSpan (ExcessIsShort calibration.now) (reverse made.rows)) }
    // A test span begins at each reset, else a drive span at the first tick and exactly if a test was
    // passed at the tick before. In each test span the stages are off. Without a fault, and before its onset,
    // no start-up test fails.
    ensures cycles { IfOk result (λ made.
        SpansBeginInTurn (test_ticks_of calibration.now.times) (reverse made.rows)) }
    ensures unpowered { IfOk result (λ made. EachTestSpan AreOff (reverse made.rows)) }
    ensures passes { IfOk result (λ made.
        All (NeverFails (option_copied fault.entry)) (reverse made.rows)) }
    // Each tick is counted, and each row is weighed; where memory ran out, none was made.
    ensures counted { OnOk result (steps.new ≡ count_with steps.old (reverse (record_rows gasoline
        (run_by calibration.now image.now (option_copied fault.entry) plan.now drive.now)))) }
    ensures unmade { OnErr result (steps.new ≡ steps.old) }
{
    // Called for its clause alone: the calibration is an accepted one.
    let _rules = calibration.rules();
    record_run(alloc, calibration, image, plan, drive, fault, steps)
}

/// The run itself.
fn record_run(
    alloc: Global,
    calibration: &Calibration,
    image: &[u16],
    plan: &SlicePlan,
    drive: &[Drive],
    fault: Option<&Fault>,
    steps: &mut Ticks,
) -> Result<RunRecord, NoMemory>
    requires most { length drive.now ≤ 20000 }
    requires image { length image.now ≤ CODE_END }
    requires fault { IsNoneOrValid (option_copied fault) }
    ensures made { IfOk result (λ made. IsRecordOf
        (run_by calibration.now image.now (option_copied fault.entry) plan.now drive.now)
        made.rows made.trap) }
    ensures counted { OnOk result (steps.new ≡ count_with steps.old (reverse (record_rows gasoline
        (run_by calibration.now image.now (option_copied fault.entry) plan.now drive.now)))) }
    ensures unmade { OnErr result (steps.new ≡ steps.old) }
{
    let mut controller = bench_controller(calibration, image, fault);
    let rows = make_rows(alloc, &mut controller, plan, drive, steps)?;
    Ok(record_of(rows, &controller))
}

/// The record of these rows and of the trap that a controller tells.
fn record_of(rows: Vec<Row>, controller: &Controller<GasolineEngine, FlatMemory>) -> RunRecord
    ensures rows { result.rows ≡ rows.items }
    ensures trap { result.trap ≡ controller.now.kept.trap }
{
    RunRecord {
        rows: Items::new(rows),
        trap: controller.trap(),
    }
}

/// The rows of the ticks of a drive, by a controller that has made no tick.
fn make_rows(
    alloc: Global,
    controller: &mut Controller<GasolineEngine, FlatMemory>,
    plan: &SlicePlan,
    drive: &[Drive],
    steps: &mut Ticks,
) -> Result<Vec<Row>, NoMemory>
    requires none { controller.old.kept.ticks ≡ 0 }
    requires sure { IsTrue controller.old.kept.memory.sure }
    requires most { length drive.now ≤ 20000 }
    ensures at { (r : Run) → r.plan ≡ plan.now → r.drive ≡ drive.now →
        IsAt gasoline gasoline_of r 0 controller.old →
        OnOk result (IsAt gasoline gasoline_of r (length drive.now) controller.new) }
    ensures rows { (r : Run) → r.plan ≡ plan.now → r.drive ≡ drive.now →
        IsAt gasoline gasoline_of r 0 controller.old →
        IfOk result (λ rows. rows.items ≡ reverse (rows_to gasoline r (length drive.now))) }
    ensures counted { (r : Run) → r.plan ≡ plan.now → r.drive ≡ drive.now →
        IsAt gasoline gasoline_of r 0 controller.old →
        OnOk result (steps.new ≡ count_with steps.old (reverse (record_rows gasoline r))) }
    ensures unmade { OnErr result (steps.new ≡ steps.old) }
{
    // Called for its clause alone: both numbers are a u64.
    let _numbers = (steps.count(), steps.sum());
    let mut rows = Vec::with_capacity(alloc, drive.len())?;
    for tick in 0..drive.len() {
        let row = bench_row(controller, plan, &drive[tick], tick as u32, steps);
        let Ok(()) = rows.push(row) else {
            unreachable!("there is room for the row of each tick");
        };
    }
    Ok(rows)
}
