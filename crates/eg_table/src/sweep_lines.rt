// The text of the table of a sweep.
ghost use Rattle.std.specs.Prelude.{◌≡◌, ◌++◌, IfOk, OnOk, string_bytes};
ghost use Rattle.std.specs.List.{filter_map};
ghost use Rattle.eg_table.specs.Sweep.{greatest_number, greatest_listed};
ghost use Rattle.eg_table.specs.SweepTexts.{reaction_text, sweep_end, sweep_line, sweep_text_of, watches_text};

use crate::SweepRow;
use eg_base::NoMemory;
use eg_fault::{CLASSES, ClassName, LISTED};
use eg_record::Watch;
use std::alloc::{AllocError, Global};

/// The text of a table: the line of each class, and the last line with the greatest reaction of all classes
/// but lapses, each with its LF (docs/FORMATS.md, "The table of `sweep`"). NoMemory is its one refusal.
pub fn sweep_text(alloc: Global, rows: &[SweepRow; CLASSES]) -> Result<Vec<u8>, NoMemory>
    ensures { IfOk result (λ text. text.items ≡ sweep_text_of rows.now) }
{
    let mut text = String::new(alloc);
    for (class, row) in ClassName::ORDER.iter().zip(rows) {
        push_row(&mut text, class.text(), row)?;
    }
    push_end(&mut text, rows)?;
    Ok(text.into_bytes())
}

/// Appends the line of a class with this name.
fn push_row(text: &mut String, name: &str, row: &SweepRow) -> Result<(), AllocError>
    ensures { OnOk result (string_bytes text.new ≡ string_bytes text.old ++ sweep_line (name.now, row.now)) }
{
    write!(text, "{name}: runs {}; none {}", row.runs, row.none)?;
    push_watches(text, &row.by_watch)?;
    text.push_str("; reaction ")?;
    push_reaction(text, row.reaction)?;
    text.push_str("\n")
}

/// Appends the counts of the watches.
fn push_watches(text: &mut String, by_watch: &[u32; 8]) -> Result<(), AllocError>
    ensures { OnOk result (string_bytes text.new ≡ string_bytes text.old ++ watches_text by_watch.now) }
{
    for (watch, count) in Watch::ORDER.iter().zip(by_watch) {
        write!(text, "; {} {count}", watch.name())?;
    }
    Ok(())
}

/// Appends the last line.
#[tactic(auto, unfolding(crate::specs::SweepTexts::sweep_end))]
fn push_end(text: &mut String, rows: &[SweepRow; CLASSES]) -> Result<(), AllocError>
    ensures { OnOk result (string_bytes text.new ≡ string_bytes text.old ++ sweep_end rows.now) }
{
    text.push_str("greatest reaction ")?;
    push_reaction(text, greatest_listed(rows))?;
    text.push_str("\n")
}

/// Appends a reaction, or `none`.
#[tactic(auto, unfolding(crate::specs::SweepTexts::reaction_text))]
fn push_reaction(text: &mut String, reaction: Option<u32>) -> Result<(), AllocError>
    ensures { OnOk result (string_bytes text.new ≡ string_bytes text.old ++ reaction_text reaction) }
{
    match reaction {
        Some(ticks) => write!(text, "{ticks}"),
        None => text.push_str("none"),
    }
}

/// The greatest reaction of all classes but lapses, in ticks.
#[tactic(auto, unfolding(crate::specs::Sweep::greatest_listed, eg_fault::specs::Names::class_index))]
fn greatest_listed(rows: &[SweepRow; CLASSES]) -> Option<u32>
    ensures { result ≡ greatest_listed rows.now }
{
    let all = rows.as_slice();
    greatest_reaction(&all[..LISTED])
}

/// The greatest reaction of these rows, in ticks.
fn greatest_reaction(rows: &[SweepRow]) -> Option<u32>
    ensures { result ≡ greatest_number (filter_map (λ row. row.reaction) rows.now) }
{
    let mut most = None;
    for row in rows {
        most = most.max(row.reaction);
    }
    most
}
