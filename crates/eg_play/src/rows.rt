// The rows of `table` and of `margins` are written.
ghost use Rattle.std.specs.Prelude.{◌≡◌, ◌++◌, All, IfOk, OnOk, string_bytes};
ghost use Rattle.eg_campaign.specs.Groups.{AreTold, rows_made, told_by};
ghost use Rattle.eg_plan.specs.Playable.{IsPlayable};
ghost use Rattle.eg_outcome.specs.Changes.{change, change_of};
ghost use Rattle.eg_outcome.specs.Outcomes.{LineEnds};
ghost use Rattle.eg_play.specs.Texts.{header_of, line_of, rows_by, rows_text, weighs};
ghost use Rattle.eg_play.specs.Ends.{AreTicked};

use eg_answer::reaction;
use eg_base::{NoMemory, Sink};
use eg_campaign::told_all;
use eg_outcome::{Columns, Outcome, put_text};
use eg_plan::RunInput;
use eg_record::RunFacts;
use eg_table::{margins_header, push_margins_line, push_table_line, table_header};
use eg_tick::Ticks;
use eg_values::Calibration;
use std::alloc::{AllocError, Global};

/// Plays the runs of a campaign, and puts a header and a row with these columns for each (docs/FORMATS.md,
/// "The rows of `table`" and "The rows of `margins`"). The ticks are counted in `steps`.
pub(crate) fn put_rows<K: Sink>(
    alloc: Global,
    columns: Columns,
    calibration: &Calibration,
    inputs: &[RunInput],
    out: &mut K,
    steps: &mut Ticks,
) -> Outcome
    requires { All IsPlayable inputs.now }
    ensures written { LineEnds (rows_text columns calibration.now inputs.now)
        (change_of K.shows out.old out.new) result }
    ensures ticked { AreTicked (rows_made calibration.now inputs.now) (change steps.old steps.new) result }
{
    let Ok(told) = told_for(alloc, columns, calibration, inputs, steps) else {
        return Outcome::Memory;
    };
    let bound = reaction(calibration.times());
    let Ok(text) = rows_text(alloc, columns, bound, inputs, &told) else {
        return Outcome::Memory;
    };
    put_text(&text, out)
}

/// Plays the runs of a campaign, and tells what these columns need of each: the debouncers are looked at for
/// `margins` alone.
fn told_for(
    alloc: Global,
    columns: Columns,
    calibration: &Calibration,
    inputs: &[RunInput],
    steps: &mut Ticks,
) -> Result<Vec<RunFacts>, NoMemory>
    requires { All IsPlayable inputs.now }
    ensures { AreTold (told_by (weighs columns) calibration.now) inputs.now
        (rows_made calibration.now inputs.now) steps.old steps.new result }
{
    match columns {
        Columns::Table => told_all::<false>(alloc, calibration, inputs, steps),
        Columns::Margins => told_all::<true>(alloc, calibration, inputs, steps),
    }
}

/// The header and the rows of these runs: `told` is what is told of each, and `bound` the worst-case
/// reaction, in ticks.
fn rows_text(
    alloc: Global,
    columns: Columns,
    bound: u32,
    inputs: &[RunInput],
    told: &[RunFacts],
) -> Result<Vec<u8>, NoMemory>
    ensures { IfOk result (λ text. text.items ≡ rows_by columns bound inputs.now told.now) }
{
    let mut text = String::new(alloc);
    text.push_str(header(columns))?;
    for (input, one) in inputs.iter().zip(told) {
        push_line(&mut text, columns, bound, input, one)?;
    }
    Ok(text.into_bytes())
}

/// The line above the runs, with its LF.
fn header(columns: Columns) -> &'static str
    ensures { result.now ≡ header_of columns }
{
    match columns {
        Columns::Table => table_header(),
        Columns::Margins => margins_header(),
    }
}

/// Appends the line of a run, of which this is told, with its LF. It is refused where memory runs out.
fn push_line(
    text: &mut String,
    columns: Columns,
    bound: u32,
    input: &RunInput,
    one: &RunFacts,
) -> Result<(), AllocError>
    ensures { OnOk result
        (string_bytes text.new ≡ string_bytes text.old ++ line_of columns bound (input.now, one.now)) }
{
    let (name, fault) = (input.plan.name.as_str(), input.plan.fault.as_ref());
    match columns {
        Columns::Table => push_table_line(text, name, fault, bound, one),
        Columns::Margins => push_margins_line(text, name, fault, &one.margins),
    }
}
