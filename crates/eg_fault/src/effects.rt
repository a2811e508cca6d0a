// What a fault does at a tick.
ghost use Rattle.std.specs.Prelude.{◌≡◌, ℕ, false, option_map};
ghost use Rattle.std.specs.Option.{option_copied, option_map_or};
ghost use Rattle.eg_answer.specs.Periods.{place_of};
ghost use Rattle.eg_fault.specs.Effects;
ghost use Rattle.eg_fault.specs.Effects.{no_effects, readings_under, contacts_under, sends_at};
ghost use Rattle.eg_fault.specs.Faults.{effects, effects_of};
ghost use Rattle.eg_fault.specs.Running.{of_levels, beyond_levels, RunAlike, ElseAlike, IsRunning};

use crate::{Class, Fault, ModuleRuns};
use eg_answer::Times;
use eg_sensor::{
    BRAKE_1, BRAKE_2, LOAD_1, LOAD_2, PEDAL_1, PEDAL_2, PLATE_1, PLATE_2, Readings, SPEED_1,
    SPEED_2,
};

/// What the sensors read at a tick, where sound tracks read the truth (docs/CONCEPT.md, "Faults").
#[inline(always)]
#[tactic(auto, unfolding(crate::specs::Effects::readings_under))]
pub fn faulty_readings(fault: Option<&Fault>, tick: u32, truth: &Readings) -> Readings
    ensures { result ≡ readings_under (effects (option_copied fault.entry) tick) truth.now }
{
    Readings {
        pedal: [
            track(fault, tick, PEDAL_1, truth.pedal[0]),
            track(fault, tick, PEDAL_2, truth.pedal[1]),
        ],
        plate: [
            track(fault, tick, PLATE_1, truth.plate[0]),
            track(fault, tick, PLATE_2, truth.plate[1]),
        ],
        load: [
            track(fault, tick, LOAD_1, truth.load[0]),
            track(fault, tick, LOAD_2, truth.load[1]),
        ],
        speed: [
            track(fault, tick, SPEED_1, truth.speed[0]),
            track(fault, tick, SPEED_2, truth.speed[1]),
        ],
        raise: raise(fault, tick, truth.raise),
        raise_check: truth.raise_check,
    }
}

/// What the contacts of the brake read at a tick, where sound ones read the truth (docs/CONCEPT.md,
/// "Faults").
#[tactic(auto, unfolding(crate::specs::Effects::contacts_under))]
pub fn faulty_contacts(fault: Option<&Fault>, tick: u32, truth: [u16; 2]) -> [u16; 2]
    ensures { result ≡ contacts_under (effects (option_copied fault.entry) tick) truth }
{
    [
        track(fault, tick, BRAKE_1, truth[0]),
        track(fault, tick, BRAKE_2, truth[1]),
    ]
}

/// Where the throttle plate, or the rack of a diesel engine, is held at a tick, in per mille, if it is
/// (docs/CONCEPT.md, "Faults").
#[tactic(auto, unfolding(crate::specs::Effects::no_effects))]
pub fn held(fault: Option<&Fault>, tick: u32) -> Option<u16>
    ensures { result ≡ (effects (option_copied fault.entry) tick).held_plate }
{
    let (class, after) = acting(fault, tick)?;
    class.held_plate(after)
}

/// Whether level 1 runs at a tick (docs/CONCEPT.md, "Faults").
#[tactic(auto, unfolding(crate::specs::Effects::no_effects))]
pub fn level1_runs(fault: Option<&Fault>, tick: u32) -> bool
    ensures { result ≡ (effects (option_copied fault.entry) tick).level1 }
{
    let Some((class, after)) = acting(fault, tick) else {
        return true;
    };
    class.level1_runs(after)
}

/// How the modules of level 2 run at a tick (docs/CONCEPT.md, "Faults").
#[inline(always)]
pub fn module_runs(fault: Option<&Fault>, tick: u32) -> ModuleRuns
    ensures { IsRunning (effects (option_copied fault.entry) tick) result }
{
    let Some((class, after)) = acting(fault, tick) else {
        return ModuleRuns::all();
    };
    class.runs(after)
}

/// The word of level 2 (0 to 31) that is flipped at a tick, and its bits, if one is (docs/CONCEPT.md,
/// "Faults").
#[tactic(auto, unfolding(crate::specs::Effects::no_effects))]
pub fn flip(fault: Option<&Fault>, tick: u32) -> Option<(u8, u16)>
    ensures { result ≡ (effects (option_copied fault.entry) tick).flip }
{
    let (class, after) = acting(fault, tick)?;
    class.flip(after)
}

/// The fault, where it changes at a tick how level 1 and level 2 run, else None: then both run, no module is
/// disturbed, and no word is flipped (docs/CONCEPT.md, "Faults").
#[tactic(auto, unfolding(crate::specs::Running::of_levels))]
pub fn fault_of_levels(fault: Option<&Fault>, tick: u32) -> Option<&Fault>
    ensures fault { option_copied result ≡ of_levels (option_copied fault.entry) tick }
    ensures same { RunAlike (effects (option_copied result) tick) (effects (option_copied fault.entry) tick) }
{
    let found = fault?;
    let after = tick.checked_sub(found.onset)?;
    if !found.class.changes_levels(after) {
        return None;
    }
    fault
}

/// The fault, where it may change at a tick more than how level 1 and level 2 run, else None: then sensors,
/// plate, questions, answers and paths are as without a fault (docs/CONCEPT.md, "Faults").
#[tactic(auto, unfolding(crate::specs::Running::beyond_levels))]
pub fn fault_beyond_levels(fault: Option<&Fault>, tick: u32) -> Option<&Fault>
    ensures fault { option_copied result ≡ beyond_levels (option_copied fault.entry) tick }
    ensures same { ElseAlike (effects (option_copied result) tick)
        (effects (option_copied fault.entry) tick) }
{
    let found = fault?;
    if tick < found.onset || found.class.may_change_levels() {
        return None;
    }
    fault
}

/// Whether a tick is one at which level 2 sends its answer (docs/CONCEPT.md, "Faults"). `tick` is its number
/// in the run, by which the fault acts, and `place` is which tick of its period it is, by its number in the
/// span.
#[tactic(auto, unfolding(crate::specs::Effects::sends_at))]
pub fn sends(fault: Option<&Fault>, tick: u32, place: u32, times: &Times) -> bool
    ensures { (local : ℕ) → place ≡ place_of times.now local
        → result ≡ sends_at (effects (option_copied fault.entry) tick) times.now local }
{
    sends_in(moved_send(fault, tick), place, times)
}

/// What a wild monitoring module does at a tick: the number of the question that it asks, which is taken
/// modulo the count of questions, and whether it orders path 2 open. None where the monitoring module isn't
/// wild (docs/CONCEPT.md, "Faults").
#[tactic(auto, unfolding(crate::specs::Effects::no_effects))]
pub fn wild(fault: Option<&Fault>, tick: u32) -> Option<(u16, bool)>
    ensures question { option_map (λ asked. asked.0) result
        ≡ (effects (option_copied fault.entry) tick).wild }
    ensures opens { option_map_or (λ asked. asked.1) result false
        ≡ (effects (option_copied fault.entry) tick).opens }
{
    let (class, after) = acting(fault, tick)?;
    class.wild(after)
}

/// Whether path 1 or 2 conducts at a tick, where its latch is open (`opened`) or closed (docs/CONCEPT.md,
/// "Faults").
#[tactic(auto, unfolding(crate::specs::Effects::no_effects))]
pub fn conducts(fault: Option<&Fault>, tick: u32, path: u8, opened: bool) -> bool
    ensures { result ≡ (effects (option_copied fault.entry) tick).conducts path opened }
{
    let Some((class, after)) = acting(fault, tick) else {
        return !opened;
    };
    class.conducts(after, path, opened)
}

/// What a track (0 to 9) reads at a tick, where a sound one reads `sound`.
#[tactic(auto, unfolding(crate::specs::Effects::no_effects))]
fn track(fault: Option<&Fault>, tick: u32, index: u8, sound: u16) -> u16
    ensures { result ≡ (effects (option_copied fault.entry) tick).track index sound }
{
    let Some((class, after)) = acting(fault, tick) else {
        return sound;
    };
    class.track(after, index, sound)
}

/// What is read as the raise at a tick, in tenths of Nm, where `sent` is sent.
#[tactic(auto, unfolding(crate::specs::Effects::no_effects))]
fn raise(fault: Option<&Fault>, tick: u32, sent: u16) -> u16
    ensures { result ≡ (effects (option_copied fault.entry) tick).raise sent }
{
    let Some((class, after)) = acting(fault, tick) else {
        return sent;
    };
    class.raise(after, sent)
}

/// The tick of a period at which answers are sent, where it isn't the usual one.
#[tactic(auto, unfolding(crate::specs::Effects::no_effects))]
fn moved_send(fault: Option<&Fault>, tick: u32) -> Option<u16>
    ensures { result ≡ (effects (option_copied fault.entry) tick).send }
{
    let (class, after) = acting(fault, tick)?;
    class.moved_send(after)
}

/// Whether a tick at this place in its period is one at which answers are sent: at the place `moved` of each
/// period, or at the usual one.
#[tactic(auto, unfolding(crate::specs::Effects::sends_in, eg_answer::specs::Periods::is_send_tick))]
fn sends_in(moved: Option<u16>, place: u32, times: &Times) -> bool
    ensures { (tick : ℕ) → place ≡ place_of times.now tick
        → result ≡ Effects.sends_in moved times.now tick }
{
    match moved {
        Some(send) => place == u32::from(send),
        None => place == u32::from(times.send()),
    }
}

/// The class of a fault that acts at a tick, and how many ticks after the onset that is.
#[tactic(auto, unfolding(crate::specs::Faults::effects))]
fn acting(fault: Option<&Fault>, tick: u32) -> Option<(&Class, u32)>
    ensures { effects (option_copied fault.entry) tick
        ≡ option_map_or (λ a. effects_of a.0.now a.1) result no_effects }
{
    let fault = fault?;
    let after = tick.checked_sub(fault.onset)?;
    Some((&fault.class, after))
}
