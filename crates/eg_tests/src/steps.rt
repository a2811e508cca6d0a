// What a whole call shows over a store and outputs that are sure, and how many ticks it makes of runs that
// share what comes before their faults.
use crate::calls::{NOTHING, call, end};
use eg_app::Outcome;
use eg_base::{SureSink, SureStore};
use eg_tick::Ticks;
use std::test::Fail;

/// A check file with an excess at each of five ticks.
const EXCESS: &str =
    "pedal,speed,raise,torque\n0,800,0,401\n0,800,0,401\n0,800,0,401\n0,800,0,401\n0,800,0,401\n";

/// The output has room for the line that is put, and the notes have none.
#[test]
fn a_sure_store_and_a_sure_output_serve_a_call(rt: HostRuntime) -> Result<(), Fail> {
    let alloc = rt.alloc();
    let mut store = SureStore::new(alloc);
    let mut out = SureSink::new(alloc, 9)?;
    let mut notes = SureSink::new(alloc, 0)?;
    let mut steps = Ticks::new();
    store.add("in.csv", EXCESS.as_bytes())?;
    let outcome = end(
        alloc,
        "check in.csv",
        &mut store,
        &mut out,
        &mut notes,
        &mut steps,
    )?;
    assert!(rt; outcome == Outcome::Done && out.bytes() == "torque 4\n".as_bytes());
    Ok(())
}

/// The run without a fault is made once, and a run under a fault from the last hundredth tick on that isn't
/// after its onset: 1,000, 100 and 700 ticks. A run that is alone in its group is made whole: 60, 60 and 60.
#[test]
fn ticks_that_runs_share_are_made_once(rt: HostRuntime) -> Result<(), Fail> {
    let late = call(rt.alloc(), "run late.toml", NOTHING)?;
    let early = call(rt.alloc(), "run early.toml", NOTHING)?;
    assert!(rt; late.outcome == Outcome::Done && late.steps.count() == 1800);
    assert!(rt; early.outcome == Outcome::Done && early.steps.count() == 180);
    Ok(())
}
