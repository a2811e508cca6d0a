// Rows of runs that are kept, summed up and written one by one, as no command does.
ghost use Rattle.std.specs.Prelude.{◌≤◌, length, reverse, IfOk};
ghost use Rattle.eg_record.specs.Rows.{AreRows};

use eg_base::NoMemory;
use eg_num::Drive;
use eg_pages::PagedMemory;
use eg_plant::GasolineEngine;
use eg_record::{Row, row_text, summarize, summary_text};
use eg_tick::{Controller, RunRecord, SlicePlan, Slices, Ticks, bench_begin, bench_tick, run_one};
use eg_values::reference;
use eg_word::FULL;
use std::alloc::Global;
use std::test::Fail;

/// An image that reads the actual torque in one slice and again in the next, and gives the difference to the
/// throttle.
const PROBE: [u16; 11] = [
    0x1210, 0x2220, 0x1a10, 0x2a10, 0xb442, 0xf000, 0xb642, 0x58d0, 0xc940, 0xf000, 0xd1f9,
];

/// The lines of four ticks of this image, which runs in slices 3 and 4 alone.
const PROBE_LINES: &str = "0,0,800,0,0,40,0,200,1,1,1,0,200,100,0,0,100,0,-,-,-\n\
                           1,0,800,0,50,40,0,200,1,1,1,0,200,100,0,0,0,0,-,-,-\n\
                           2,0,800,0,0,80,0,200,1,1,1,0,200,200,0,0,100,0,-,-,-\n\
                           3,0,800,0,50,40,0,200,1,1,1,0,200,100,0,0,65436,0,-,-,-\n";

/// What the report says of twenty ticks of the image that sets both outputs to 1000.
const FULL_LINE: &str = "a: first torque at 9; off at 10; trap none; excess at 9; bound 34\n";

/// The pedal at rest, at 800 revolutions.
fn at_rest() -> Result<Drive, Fail> {
    Ok(Drive::new(0, 800, 0, false, false).ok_or("no drive row")?)
}

/// These slices at each tick.
fn plan(slices: [u16; 9]) -> Result<SlicePlan, Fail> {
    let slices = Slices::new(slices).ok_or("no slices")?;
    Ok(SlicePlan::new(&[slices]).ok_or("no slice plan")?)
}

/// The record of a run without a fault, with the reference calibration.
#[tactic(auto, unfolding(eg_fault::specs::Faults::IsNoneOrValid))]
fn run(
    alloc: Global,
    image: &[u16],
    plan: &SlicePlan,
    drive: &[Drive],
    steps: &mut Ticks,
) -> Result<RunRecord, NoMemory>
    requires image { length image.now ≤ 1024 }
    requires some { 1 ≤ length drive.now }
    requires most { length drive.now ≤ 20000 }
    ensures { IfOk result (λ made. AreRows (reverse made.rows)) }
{
    run_one(alloc, &reference(), image, plan, drive, None, steps)
}

/// A controller over a memory in pages, which has made no tick: that of a run on the bench of the image that
/// sets both outputs to 1000.
#[tactic(auto, unfolding(eg_fault::specs::Faults::IsNoneOrValid))]
fn begun(alloc: Global) -> Result<Controller<GasolineEngine, PagedMemory>, NoMemory> {
    bench_begin(&reference(), &FULL, None, PagedMemory::new(alloc)?)
}

/// A branch of such a controller.
#[tactic(auto, unfolding(eg_fault::specs::Faults::IsNoneOrValid))]
fn branched(alloc: Global) -> Result<Controller<GasolineEngine, PagedMemory>, NoMemory> {
    let calibration = reference();
    let engine = GasolineEngine::new(calibration.plant().copy());
    let memory = PagedMemory::new(alloc)?;
    let controller = Controller::new(calibration, &FULL, None, memory, engine)?;
    controller.branch(alloc, None)
}

/// The rows of twenty ticks of a controller that has made none.
fn rows_by(
    alloc: Global,
    controller: Controller<GasolineEngine, PagedMemory>,
    plan: &SlicePlan,
    drive: &Drive,
) -> Result<Vec<Row>, NoMemory> {
    let mut controller = controller;
    let mut steps = Ticks::new();
    let mut rows = Vec::new(alloc);
    for tick in 0..20 {
        if controller.ticks() != tick {
            break;
        }
        let row = bench_tick(&mut controller, plan, drive, tick, &mut steps)?;
        rows.push(row)?;
    }
    Ok(rows)
}

/// The lines of these rows.
fn lines(alloc: Global, rows: &[Row]) -> Result<String, Fail> {
    let mut lines = String::new(alloc);
    for row in rows {
        lines.push_str(&row_text(alloc, row)?)?;
    }
    Ok(lines)
}

#[test]
fn the_rows_of_a_run_are_written_line_by_line(rt: HostRuntime) -> Result<(), Fail> {
    let mut steps = Ticks::new();
    let plan = plan([0, 0, 0, 10, 10, 0, 0, 0, 0])?;
    let made = run(rt.alloc(), &PROBE, &plan, &[at_rest()?; 4], &mut steps)?;
    let lines = lines(rt.alloc(), made.rows.as_slice())?;
    assert!(rt; lines.as_str() == PROBE_LINES);
    assert!(rt; steps.count() == 4 && steps.sum() == 67_142);
    Ok(())
}

#[test]
fn the_rows_of_a_run_are_summed_up_and_are_the_same_over_pages_and_by_a_branch(
    rt: HostRuntime,
) -> Result<(), Fail> {
    let mut steps = Ticks::new();
    let (plan, drive) = (plan([100; 9])?, at_rest()?);
    let made = run(rt.alloc(), &FULL, &plan, &[drive; 20], &mut steps)?;
    let calibration = reference();
    let (rules, rows) = (calibration.rules(), made.rows.as_slice());
    let summary = summarize(
        rt.alloc(),
        "a",
        rows,
        made.trap,
        rules.threshold,
        &rules.torque,
        34,
    )?;
    let line = summary_text(rt.alloc(), &summary)?;
    let paged = rows_by(rt.alloc(), begun(rt.alloc())?, &plan, &drive)?;
    let branch = rows_by(rt.alloc(), branched(rt.alloc())?, &plan, &drive)?;
    let (whole, in_pages) = (lines(rt.alloc(), rows)?, lines(rt.alloc(), &paged)?);
    let by_branch = lines(rt.alloc(), &branch)?;
    assert!(rt; line.as_str() == FULL_LINE);
    assert!(rt; steps.count() == 20 && steps.sum() == 51_803);
    assert!(rt; rows.len() == 20 && whole.as_str() == in_pages.as_str());
    assert!(rt; whole.as_str() == by_branch.as_str());
    Ok(())
}
