// A controller over a memory that refuses one store.
ghost use Rattle.std.specs.Prelude.{◌≡◌, ◌+◌, ◌≤◌, ◌<◌, IfOk};

use eg_base::NoMemory;
use eg_guard::StingyMemory;
use eg_num::Drive;
use eg_plant::GasolineEngine;
use eg_tick::{Controller, Slices, Ticks};
use eg_values::reference;
use eg_word::FULL;
use std::test::Fail;

/// A controller whose level 1 sets both outputs and waits, over a memory that refuses the store of this
/// number. It has made no tick.
#[tactic(auto, unfolding(eg_fault::specs::Faults::IsNoneOrValid))]
fn controller(refuse: u32) -> Result<Controller<GasolineEngine, StingyMemory>, NoMemory>
    ensures { IfOk result (λ controller. controller.kept.ticks ≡ 0) }
{
    let calibration = reference();
    let engine = GasolineEngine::new(calibration.plant().copy());
    Controller::new(calibration, &FULL, None, StingyMemory::new(refuse), engine)
}

/// Whether one tick more is made, with the pedal at rest.
fn is_made(
    controller: &mut Controller<GasolineEngine, StingyMemory>,
    drive: &Drive,
    slices: &Slices,
    steps: &mut Ticks,
) -> bool
    requires { controller.old.kept.ticks < 20000 }
    ensures { controller.new.kept.ticks ≤ controller.old.kept.ticks + 1 }
{
    match controller.tick(drive, slices, steps) {
        Ok(_) => true,
        Err(_) => false,
    }
}

/// Which of three ticks are made.
fn made(refuse: u32) -> Result<[bool; 3], Fail> {
    let mut controller = controller(refuse)?;
    let drive = Drive::new(0, 800, 0, false, false).ok_or("no drive row")?;
    let slices = Slices::new([100; 9]).ok_or("no slices")?;
    let mut steps = Ticks::new();
    Ok([
        is_made(&mut controller, &drive, &slices, &mut steps),
        is_made(&mut controller, &drive, &slices, &mut steps),
        is_made(&mut controller, &drive, &slices, &mut steps),
    ])
}

#[test]
fn out_of_memory_is_told_and_stays(rt: HostRuntime) -> Result<(), Fail> {
    // The image takes 8 stores, and the reset of level 2 takes 32.
    for refuse in 0..40 {
        assert!(rt; controller(refuse).is_err(), "store {refuse}");
    }
    // A tick takes 11 stores of the board and, where no counter changes, 44 of level 2; in the first one
    // level 1 makes two more.
    for refuse in 40..=207 {
        let wanted = [refuse >= 97, refuse >= 152, refuse >= 207];
        assert!(rt; made(refuse)? == wanted, "store {refuse}");
    }
    Ok(())
}
