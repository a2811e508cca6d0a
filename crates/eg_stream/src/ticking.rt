// A controller that makes a tick of each answer.
ghost use Rattle.std.specs.Prelude.{◌≡◌, ℕ, ◌≤◌, ◌<◌, ◌+◌, ◌%◌, ◌^◌, ◌∷◌, [], List, Ok, length};
ghost use Rattle.eg_guard.specs.declared.regions.TheConstants.{DATA as CODE_END};
ghost use Rattle.eg_fault.specs.Faults.{IsNoneOrValid};
ghost use Rattle.eg_model.specs.Spans.{next};
ghost use Rattle.eg_model.specs.Rows.{row_of};
ghost use Rattle.eg_input.specs.declared.answered.PartnerAnswer.{PartnerAnswer as SomeAnswer};
ghost use Rattle.eg_tick.specs.Commanding.{commands_next};
ghost use Rattle.eg_tick.specs.Weights.{weight_of};
ghost use Rattle.eg_stream.specs.Coupled.{CoupledUnit, unit_of, entry_by, entries_by, lawful, taken};
ghost use Rattle.eg_stream.specs.Inner.Running.{IsCoupled};

use eg_fault::Fault;
use eg_guard::FlatMemory;
use eg_host::SlicePlan;
use eg_input::PartnerAnswer;
use eg_plan::RunInput;
use eg_plant::ForeignEngine;
use eg_record::Row;
use eg_tick::{Commands, Controller, Ticks};
use eg_values::Calibration;

/// The controller of a run, around an engine elsewhere, before the first answer.
#[inline(never)]
pub(crate) fn coupled_controller(
    calibration: &Calibration,
    input: &RunInput,
) -> Controller<ForeignEngine, FlatMemory>
    requires image { length input.now.image ≤ CODE_END }
    requires fault { IsNoneOrValid input.now.plan.fault }
    ensures { IsCoupled (unit_of calibration.now input.now) [] result }
{
    let engine = ForeignEngine::new(calibration.rules().kt);
    let fault = Fault::copied(input.plan.fault.as_ref());
    let image = input.image.as_slice();
    match Controller::new(calibration.copy(), image, fault, FlatMemory::new(), engine) {
        Ok(controller) => controller,
        Err(_) => unreachable!("a sure memory never runs out"),
    }
}

/// Makes the tick of an answer that was taken, and tells its row (docs/CONCEPT.md, "`couple`"). It is
/// counted in `steps`. It takes no memory and refuses nothing.
#[inline(always)]
pub(crate) fn answered_row(
    controller: &mut Controller<ForeignEngine, FlatMemory>,
    plan: &SlicePlan,
    answer: &PartnerAnswer,
    steps: &mut Ticks,
) -> Row
    requires fewer { controller.old.kept.ticks < 20000 }
    requires coupled { (unit : CoupledUnit) × (before : List SomeAnswer) × (line : List ℕ)
        × IsCoupled unit before controller.old × (taken unit before line ≡ Ok answer.now) }
    ensures coupled { (unit : CoupledUnit) (before : List SomeAnswer) → unit.plan ≡ plan.now
        → IsCoupled unit before controller.old → lawful unit before answer.now ≡ Ok answer.now
        → IsCoupled unit (answer.now ∷ before) controller.new }
    ensures row { (unit : CoupledUnit) (before : List SomeAnswer) → unit.plan ≡ plan.now
        → IsCoupled unit before controller.old → lawful unit before answer.now ≡ Ok answer.now
        → result ≡ row_of (length before)
        (next unit.setting (entry_by unit (length before) answer.now) (entries_by unit before)) }
    ensures count { steps.new.count ≡ (steps.old.count + 1) % 2 ^ 64 }
    ensures weight { steps.new.weights ≡ (steps.old.weights + weight_of result) % 2 ^ 64 }
{
    controller.tell(answer.told);
    let tick = controller.ticks();
    match controller.tick(&answer.drive, plan.row(tick), steps) {
        Ok(row) => row,
        Err(_) => unreachable!("a sure memory never runs out"),
    }
}

/// What is commanded next, unless the row of the next tick resets the unit.
pub(crate) fn next_commands(controller: &Controller<ForeignEngine, FlatMemory>) -> Commands
    ensures { (unit : CoupledUnit) (answers : List SomeAnswer) → IsCoupled unit answers controller.now
        → result ≡ commands_next unit.setting (entries_by unit answers) }
{
    controller.commands(false)
}
