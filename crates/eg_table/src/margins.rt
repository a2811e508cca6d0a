// The text of `margins`, line by line.
ghost use Rattle.std.specs.Prelude.{◌≡◌, ◌++◌, OnOk, string_bytes};
ghost use Rattle.std.specs.Option.{option_copied};
ghost use Rattle.eg_table.specs.Margins.{margins_header, margins_line, surplus_column, weight_columns};

use crate::line::push_class_and_onset;
use eg_fault::Fault;
use eg_record::{Counters, Margins};
use std::alloc::AllocError;

/// The line above the runs, with its LF (docs/FORMATS.md, "The rows of `margins`").
#[tactic(auto, unfolding(crate::specs::Margins::margins_header))]
pub fn margins_header() -> &'static str
    ensures { result.now ≡ margins_header }
{
    "run,class,onset,pedal,plate,load,speed,torque,answers,surplus\n"
}

/// Appends the line of a run with this name, with its LF, to a text (docs/FORMATS.md, "The rows of
/// `margins`"). It is refused where memory runs out.
#[tactic(auto, unfolding(crate::specs::Margins::margins_line))]
pub fn push_margins_line(
    text: &mut String,
    name: &str,
    fault: Option<&Fault>,
    margins: &Margins,
) -> Result<(), AllocError>
    ensures { OnOk result (string_bytes text.new
        ≡ string_bytes text.old ++ margins_line name.now (option_copied fault.entry) margins.now) }
{
    text.push_str(name)?;
    push_class_and_onset(text, fault)?;
    push_weights(text, &margins.greatest)?;
    push_surplus(text, margins.surplus)?;
    text.push_str("\n")
}

/// Appends the greatest weights of the six debouncers.
#[tactic(auto, unfolding(crate::specs::Margins::weight_columns, crate::specs::Texts::number_column))]
fn push_weights(text: &mut String, greatest: &Counters) -> Result<(), AllocError>
    ensures { OnOk result (string_bytes text.new ≡ string_bytes text.old ++ weight_columns greatest.now) }
{
    let Counters {
        pedal,
        plate,
        load,
        speed,
        torque,
        answers,
    } = *greatest;
    write!(text, ",{pedal},{plate},{load},{speed},{torque},{answers}")
}

/// Appends a comma and a signed number, or the comma alone.
#[tactic(auto, unfolding(crate::specs::Margins::surplus_column))]
fn push_surplus(text: &mut String, surplus: Option<i32>) -> Result<(), AllocError>
    ensures { OnOk result (string_bytes text.new ≡ string_bytes text.old ++ surplus_column surplus) }
{
    match surplus {
        Some(number) => write!(text, ",{number}"),
        None => text.push_str(","),
    }
}
