// The text of a table, line by line.
ghost use Rattle.std.specs.Prelude.{◌≡◌, ◌++◌, OnOk, Some, string_bytes};
ghost use Rattle.std.specs.Option.{option_copied};
ghost use Rattle.eg_table.specs.Texts.{class_columns, fault_columns, keys_column, number_column, number_columns, table_header};
ghost use Rattle.eg_table.specs.Texts.{table_line, trap_columns, watch_columns};

use crate::has_acted;
use eg_fault::Fault;
use eg_record::{RunFacts, Watch, trap_name};
use eg_word::Trap;
use std::alloc::AllocError;
use std::fmt;

/// The line above the runs, with its LF (docs/FORMATS.md, "The rows of `table`").
#[tactic(auto, unfolding(crate::specs::Texts::table_header))]
pub fn table_header() -> &'static str
    ensures { result.now ≡ table_header }
{
    "run,class,onset,fault,acted,first,first_at,cut,cut_at,off_at,last_on,confirmed,\
     stretch,peak,reaction,settled,bound,trap,trap_at\n"
}

/// Appends the line of a run with this name, with its LF, to a text (docs/FORMATS.md, "The rows of
/// `table`"). The worst-case reaction is `bound`, in ticks. It is refused where memory runs out.
#[tactic(auto, unfolding(crate::specs::Texts::table_line))]
pub fn push_table_line(
    text: &mut String,
    name: &str,
    fault: Option<&Fault>,
    bound: u32,
    told: &RunFacts,
) -> Result<(), AllocError>
    ensures { OnOk result (string_bytes text.new
        ≡ string_bytes text.old ++ table_line name.now (option_copied fault.entry) bound told.now) }
{
    text.push_str(name)?;
    push_fault(text, fault, told.facts.ticks)?;
    push_watch(text, told.facts.first)?;
    push_watch(text, told.facts.cut)?;
    push_numbers(text, bound, told)?;
    push_trap(text, told.trap)?;
    text.push_str("\n")
}

/// Appends the class of a fault, its onset, its own keys, and whether it has acted in a run of `ticks` ticks.
#[tactic(auto, unfolding(crate::specs::Texts::fault_columns))]
fn push_fault(text: &mut String, fault: Option<&Fault>, ticks: u32) -> Result<(), AllocError>
    ensures { OnOk result (string_bytes text.new
        ≡ string_bytes text.old ++ fault_columns (option_copied fault.entry) ticks) }
{
    push_class_and_onset(text, fault)?;
    push_own_keys(text, fault)?;
    write!(text, "{}", Number(has_acted(fault, ticks).map(u32::from)))
}

/// Appends the class of a fault, as campaigns spell it, and its onset; or `none` and an empty column.
#[tactic(auto, unfolding(crate::specs::Texts::class_columns))]
pub(crate) fn push_class_and_onset(
    text: &mut String,
    fault: Option<&Fault>,
) -> Result<(), AllocError>
    ensures { OnOk result (string_bytes text.new
        ≡ string_bytes text.old ++ class_columns (option_copied fault.entry)) }
{
    match fault {
        Some(fault) => write!(text, ",{},{}", fault.class.name().text(), fault.onset),
        None => text.push_str(",none,"),
    }
}

/// Appends the own keys of a fault, or nothing where there is none.
#[tactic(auto, unfolding(crate::specs::Texts::keys_column))]
fn push_own_keys(text: &mut String, fault: Option<&Fault>) -> Result<(), AllocError>
    ensures { OnOk result (string_bytes text.new
        ≡ string_bytes text.old ++ keys_column (option_copied fault.entry)) }
{
    text.push_str(",")?;
    match fault {
        Some(fault) => fault.class.push_keys(text),
        None => Ok(()),
    }
}

/// Appends a watch that is found and its tick.
#[tactic(auto, unfolding(crate::specs::Texts::watch_columns))]
fn push_watch(text: &mut String, found: Option<(Watch, u32)>) -> Result<(), AllocError>
    ensures { OnOk result (string_bytes text.new ≡ string_bytes text.old ++ watch_columns found) }
{
    match found {
        Some((watch, tick)) => write!(text, ",{},{tick}", watch.name()),
        None => text.push_str(",,"),
    }
}

/// Appends the columns that are numbers, from `off_at` to `bound`.
#[tactic(auto, unfolding(crate::specs::Texts::number_columns, crate::specs::Texts::number_column))]
fn push_numbers(text: &mut String, bound: u32, told: &RunFacts) -> Result<(), AllocError>
    ensures { OnOk result (string_bytes text.new
        ≡ string_bytes text.old ++ number_columns bound told.now) }
{
    let (facts, reactions) = (&told.facts, &told.reactions);
    let settled = reactions
        .followed
        .map(|_| u32::from(reactions.is_settled(bound)));
    write!(
        text,
        "{}{}{},{},{}{}{},{bound}",
        Number(facts.off),
        Number(facts.last_on),
        Number(facts.confirmed),
        facts.stretch,
        facts.peak,
        Number(reactions.longest),
        Number(settled)
    )
}

/// Appends the trap of level 1 and its tick.
#[tactic(auto, unfolding(crate::specs::Texts::trap_columns))]
fn push_trap(text: &mut String, trap: Option<(Trap, u32)>) -> Result<(), AllocError>
    ensures { OnOk result (string_bytes text.new ≡ string_bytes text.old ++ trap_columns trap) }
{
    match trap {
        Some((kind, tick)) => write!(text, ",{},{tick}", trap_name(kind)),
        None => text.push_str(",,"),
    }
}

/// A column with a number, or an empty one, behind a comma.
#[derive(Clone, Copy)]
pub(crate) struct Number(pub(crate) Option<u32>);

impl fmt::Display for Number {
    ghost output = { λ column. Some (number_column column.0) };

    #[tactic(auto, unfolding(crate::specs::Texts::number_column))]
    fn fmt<W: fmt::Write>(&self, f: &mut fmt::Formatter<W>) -> fmt::Result {
        match self.0 {
            Some(number) => write!(f, ",{number}"),
            None => f.write_str(","),
        }
    }
}
