// A run of an engine on the bench, tick by tick.
ghost use Rattle.std.specs.Prelude.{◌≡◌, ℕ, ◌+◌, ◌%◌, ◌^◌, ◌≤◌, ◌<◌, List, length, replicate, IfOk, OnOk, OnErr, IsOk, IsTrue};
ghost use Rattle.std.specs.Option.{option_copied};
ghost use Rattle.eg_guard.specs.declared.regions.TheConstants.{DATA as CODE_END, WORDS};
ghost use Rattle.eg_num.specs.Drive.{DriveRow};
ghost use Rattle.eg_fault.specs.Faults.{IsNoneOrValid};
ghost use Rattle.eg_model.specs.Bench.{Run, drive_at};
ghost use Rattle.eg_model.specs.Records.{row_at};
ghost use Rattle.eg_tick.specs.Weights.{weight_of};
ghost use Rattle.eg_tick.specs.Run.{run_by, IsAt};

use crate::{BenchedEngine, Controller, SlicePlan, Ticks};
use eg_base::NoMemory;
use eg_fault::Fault;
use eg_guard::{FlatMemory, Guarded};
use eg_num::Drive;
use eg_record::Row;
use eg_values::Calibration;

/// The controller with which a run on the bench begins (docs/CONCEPT.md, "A run, tick by tick"): that of an
/// engine of the calibration's plant at rest, which has made no tick, over a memory that never runs out. It
/// refuses nothing.
#[inline(never)]
pub fn bench_controller<E: BenchedEngine>(
    calibration: &Calibration,
    image: &[u16],
    fault: Option<&Fault>,
) -> Controller<E, FlatMemory>
    requires image { length image.now ≤ CODE_END }
    requires fault { IsNoneOrValid (option_copied fault) }
    ensures at { (plan : List (List ℕ)) (drive : List DriveRow) → IsAt E.bench E.come_to
        (run_by calibration.now image.now (option_copied fault.entry) plan drive) 0 result }
    ensures ticks { result.kept.ticks ≡ 0 }
    ensures sure { IsTrue result.kept.memory.sure }
{
    match bench_begin(calibration, image, fault, FlatMemory::new()) {
        Ok(controller) => controller,
        Err(_) => unreachable!("a sure memory never runs out"),
    }
}

/// Begins a run on the bench as `bench_controller` does, in the place of a run of the same calibration
/// (docs/CONCEPT.md, "A run, tick by tick").
#[inline(never)]
pub fn bench_restart<E: BenchedEngine>(
    controller: &mut Controller<E, FlatMemory>,
    calibration: &Calibration,
    image: &[u16],
    fault: Option<&Fault>,
)
    requires image { length image.now ≤ CODE_END }
    requires fault { IsNoneOrValid (option_copied fault) }
    requires calibration { controller.old.kept.cal ≡ calibration.now }
    ensures at { (plan : List (List ℕ)) (drive : List DriveRow) → IsAt E.bench E.come_to
        (run_by calibration.now image.now (option_copied fault.entry) plan drive) 0 controller.new }
    ensures ticks { controller.new.kept.ticks ≡ 0 }
    ensures sure { IsTrue controller.new.kept.memory.sure }
{
    let engine = E::at_rest(calibration.plant().copy());
    controller.restart(image, Fault::copied(fault), engine);
}

/// Makes the next tick of a run on the bench, by the controller that has made all before it, and tells its
/// row (docs/CONCEPT.md, "A run, tick by tick"). `tick` is its number in the run, the first being 0, and
/// `drive` the drive row of that tick. It is counted in `steps`. It takes no memory and refuses nothing.
#[inline(always)]
pub fn bench_row<E: BenchedEngine>(
    controller: &mut Controller<E, FlatMemory>,
    plan: &SlicePlan,
    drive: &Drive,
    tick: u32,
    steps: &mut Ticks,
) -> Row
    requires tick { controller.old.kept.ticks ≡ tick }
    requires fewer { controller.old.kept.ticks < 20000 }
    requires sure { IsTrue controller.old.kept.memory.sure }
    ensures at { (r : Run) → r.plan ≡ plan.now → drive_at r tick ≡ drive.now →
        IsAt E.bench E.come_to r tick controller.old →
        IsAt E.bench E.come_to r (tick + 1) controller.new }
    ensures row { (r : Run) → r.plan ≡ plan.now → drive_at r tick ≡ drive.now →
        IsAt E.bench E.come_to r tick controller.old → result ≡ row_at E.bench r tick }
    ensures ticks { controller.new.kept.ticks ≡ tick + 1 }
    ensures stays_sure { IsTrue controller.new.kept.memory.sure }
    ensures count { steps.new.count ≡ (steps.old.count + 1) % 2 ^ 64 }
    ensures weight { steps.new.weights ≡ (steps.old.weights + weight_of result) % 2 ^ 64 }
{
    match bench_tick(controller, plan, drive, tick, steps) {
        Ok(row) => row,
        Err(_) => unreachable!("a sure memory never runs out"),
    }
}

/// The controller with which a run on the bench begins, as `bench_controller` makes it, over a memory of
/// 0s of any kind (docs/CONCEPT.md, "A run, tick by tick"): for callers whose memory can be copied. On
/// NoMemory the memory is dropped. Over a sure memory NoMemory never comes.
pub fn bench_begin<E: BenchedEngine, M: Guarded + Drop>(
    calibration: &Calibration,
    image: &[u16],
    fault: Option<&Fault>,
    memory: M,
) -> Result<Controller<E, M>, NoMemory>
    requires image { length image.now ≤ CODE_END }
    requires fault { IsNoneOrValid (option_copied fault) }
    requires zeros { (M.shows memory).words ≡ replicate WORDS 0 }
    ensures at { IfOk result (λ controller. (plan : List (List ℕ)) (drive : List DriveRow) →
        IsAt E.bench E.come_to
        (run_by calibration.now image.now (option_copied fault.entry) plan drive) 0 controller) }
    ensures ticks { IfOk result (λ controller. controller.kept.ticks ≡ 0) }
    ensures kept_sure { IfOk result (λ controller.
        controller.kept.memory.sure ≡ (M.shows memory).sure) }
    ensures sure { IsTrue (M.shows memory).sure → IsOk result }
{
    let engine = E::at_rest(calibration.plant().copy());
    let fault = Fault::copied(fault);
    Controller::new(calibration.copy(), image, fault, memory, engine)
}

/// Makes the next tick of a run on the bench, as `bench_row` does, by a controller over any memory, and tells
/// its row (docs/CONCEPT.md, "A run, tick by tick"). The tick is counted in `steps`, also where the answer is
/// NoMemory, which never comes over a sure memory.
#[inline(always)]
pub fn bench_tick<E: BenchedEngine, M: Guarded + Drop>(
    controller: &mut Controller<E, M>,
    plan: &SlicePlan,
    drive: &Drive,
    tick: u32,
    steps: &mut Ticks,
) -> Result<Row, NoMemory>
    requires tick { controller.old.kept.ticks ≡ tick }
    requires fewer { controller.old.kept.ticks < 20000 }
    ensures at { (r : Run) → r.plan ≡ plan.now → drive_at r tick ≡ drive.now →
        IsAt E.bench E.come_to r tick controller.old →
        OnOk result (IsAt E.bench E.come_to r (tick + 1) controller.new) }
    ensures row { (r : Run) → r.plan ≡ plan.now → drive_at r tick ≡ drive.now →
        IsAt E.bench E.come_to r tick controller.old →
        IfOk result (λ row. row ≡ row_at E.bench r tick) }
    ensures ticks { OnOk result (controller.new.kept.ticks ≡ tick + 1) }
    ensures sure { IsTrue controller.old.kept.memory.sure → IsOk result }
    ensures stays_sure { controller.new.kept.memory.sure ≡ controller.old.kept.memory.sure }
    ensures count { steps.new.count ≡ (steps.old.count + 1) % 2 ^ 64 }
    ensures weight { IfOk result (λ row.
        steps.new.weights ≡ (steps.old.weights + weight_of row) % 2 ^ 64) }
    ensures no_weight { OnErr result (steps.new.weights ≡ steps.old.weights) }
{
    let row = controller.tick(drive, plan.row(tick), steps)?;
    // Called for its clause alone: the engine shows what the controller keeps of it.
    let _engine = controller.engine();
    Ok(row)
}
