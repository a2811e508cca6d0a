// The engine at a tick: its step by level 1's outputs, and what the sensors read of it.
ghost use Rattle.std.specs.Prelude.{◌≡◌, ◌≤◌, slice_index, IsFalse};
ghost use Rattle.std.specs.Option.{option_copied, ForSome};
ghost use Rattle.eg_guard.specs.declared.regions.TheConstants.{THROTTLE, IGNITION};
ghost use Rattle.eg_plant.specs.Engine.{KeepsLaws};
ghost use Rattle.eg_fault.specs.Faults.{effects};
ghost use Rattle.eg_values.specs.Calibration.{CalibrationParts};
ghost use Rattle.eg_model.specs.History.{Entry};
ghost use Rattle.eg_model.specs.Moments.{is_braking, sensed_at, readings_at};

use eg_fault::{Fault, faulty_contacts, faulty_readings};
use eg_guard::Guarded;
use eg_num::Drive;
use eg_plant::Engine;
use eg_sensor::{Readings, contacts, gate, pressed, sound};
use eg_turns::Outputs;

/// One step of the engine, by level 1's commands as the tick before left them (docs/CONCEPT.md, "Plant").
#[inline(always)]
pub(crate) fn step_engine<E: Engine, M: Guarded>(
    engine: &mut E,
    memory: &M,
    on: bool,
    held: Option<u16>,
)
    requires { ForSome held (λ at. at ≤ 1000) }
    ensures steps { E.steps engine.old (slice_index (M.shows memory.now).words THROTTLE)
        (slice_index (M.shows memory.now).words IGNITION) on held engine.new }
    ensures off { IsFalse on → (E.shows engine.new).torque ≡ 0 }
    ensures kt { E.kt engine.new ≡ E.kt engine.old }
    ensures laws { KeepsLaws (E.kt engine.new) (E.shows engine.new) }
{
    let outputs = Outputs::of(memory);
    engine.step(outputs.throttle, outputs.ignition, on, held);
}

/// The readings that both levels are given at a tick (docs/CONCEPT.md, "Sensors"). `brake` says whether the
/// brake counts.
#[inline(always)]
#[tactic(auto, unfolding(eg_model::specs::Moments::readings_at))]
pub(crate) fn readings<E: Engine>(
    engine: &E,
    drive: &Drive,
    brake: bool,
    fault: Option<&Fault>,
    tick: u32,
) -> Readings
    ensures { (cal : CalibrationParts) (e : Entry) → cal.brake ≡ brake → e.drive ≡ drive.now
        → e.shown ≡ E.shows engine.now
        → result ≡ readings_at cal (effects (option_copied fault.entry) tick) e }
{
    let sensed = sensed(engine, drive, fault, tick);
    if is_braking(drive, brake, fault, tick) {
        gate(&sensed)
    } else {
        sensed
    }
}

/// Whether the brake counts, and the unit takes it as pressed at a tick.
#[tactic(auto, unfolding(eg_model::specs::Moments::is_braking))]
fn is_braking(drive: &Drive, brake: bool, fault: Option<&Fault>, tick: u32) -> bool
    ensures { (cal : CalibrationParts) → cal.brake ≡ brake
        → result ≡ is_braking cal (effects (option_copied fault.entry) tick) drive.now }
{
    brake && pressed(faulty_contacts(fault, tick, contacts(drive.brake())))
}

/// What the tracks of pedal, plate, load and speed and the raise read at a tick.
#[inline(always)]
#[tactic(auto, unfolding(eg_model::specs::Moments::sensed_at))]
fn sensed<E: Engine>(engine: &E, drive: &Drive, fault: Option<&Fault>, tick: u32) -> Readings
    ensures { (e : Entry) → e.drive ≡ drive.now → e.shown ≡ E.shows engine.now
        → result ≡ sensed_at (effects (option_copied fault.entry) tick) e }
{
    let truth = sound(
        drive.pedal(),
        engine.position(),
        engine.loads(),
        drive.speed(),
        drive.raise(),
    );
    faulty_readings(fault, tick, &truth)
}
