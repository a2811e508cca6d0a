// The report and the record are written.
ghost use Rattle.std.specs.Prelude.{All};
ghost use Rattle.eg_campaign.specs.Groups.{rows_made};
ghost use Rattle.eg_plan.specs.Playable.{IsPlayable};
ghost use Rattle.eg_outcome.specs.Changes.{change, change_of};
ghost use Rattle.eg_outcome.specs.Outcomes.{LineEnds};
ghost use Rattle.eg_play.specs.Texts.{report_text};
ghost use Rattle.eg_play.specs.Ends.{AreTicked, Records, Tells};

use crate::rows::put_rows;
use crate::texts::report_lines;
use eg_base::Sink;
use eg_campaign::{RecordStop, record_into, run_all};
use eg_outcome::{Outcome, Telling, put_lines};
use eg_plan::RunInput;
use eg_tick::Ticks;
use eg_values::Calibration;
use std::alloc::Global;

/// Plays the runs of a campaign, and puts what is told of them in this way (docs/FORMATS.md, "Commands"). The
/// ticks are counted in `steps`.
pub fn put_told<K: Sink>(
    alloc: Global,
    telling: Telling,
    calibration: &Calibration,
    inputs: &[RunInput],
    out: &mut K,
    steps: &mut Ticks,
) -> Outcome
    requires { All IsPlayable inputs.now }
    ensures { Tells telling calibration.now inputs.now
        (change_of K.shows out.old out.new) (change steps.old steps.new) result }
{
    // Called for its clause alone: the calibration is an accepted one.
    let _rules = calibration.rules();
    match telling {
        Telling::Report => put_report(alloc, calibration, inputs, out, steps),
        Telling::Rows(columns) => put_rows(alloc, columns, calibration, inputs, out, steps),
    }
}

/// Plays the runs of a campaign, and puts the report on them (docs/FORMATS.md, "The report"). The ticks are
/// counted in `steps`.
fn put_report<K: Sink>(
    alloc: Global,
    calibration: &Calibration,
    inputs: &[RunInput],
    out: &mut K,
    steps: &mut Ticks,
) -> Outcome
    requires { All IsPlayable inputs.now }
    ensures written { LineEnds (report_text calibration.now inputs.now)
        (change_of K.shows out.old out.new) result }
    ensures ticked { AreTicked (rows_made calibration.now inputs.now) (change steps.old steps.new) result }
{
    let Ok(summaries) = run_all(alloc, calibration, inputs, steps) else {
        return Outcome::Memory;
    };
    let Ok(lines) = report_lines(alloc, &summaries) else {
        return Outcome::Memory;
    };
    put_lines(&lines, out)
}

/// Plays one run of a campaign, and puts its record as its ticks are made (docs/FORMATS.md, "The record").
/// The ticks are counted in `steps`.
pub fn put_record<K: Sink>(
    calibration: &Calibration,
    input: &RunInput,
    out: &mut K,
    steps: &mut Ticks,
) -> Outcome
    requires { IsPlayable input.now }
    ensures { Records calibration.now input.now
        (change_of K.shows out.old out.new) (change steps.old steps.new) result }
{
    // Called for its clause alone: the calibration is an accepted one.
    let _rules = calibration.rules();
    match record_into(calibration, input, out, steps) {
        Ok(()) => Outcome::Done,
        Err(RecordStop::Put) => Outcome::WriteFault,
        Err(RecordStop::Memory) => Outcome::Memory,
    }
}
