// The line of a summary, and the last line of a report.
ghost use Rattle.std.specs.Prelude.{◌≡◌, ◌++◌, string_bytes, is_some, count_by, IfOk, OnOk};
ghost use Rattle.eg_record.specs.Texts.{at_text, first_text, trap_name, trap_text, summary_line, report_end};

use crate::{Summary, Watch};
use eg_base::NoMemory;
use eg_word::Trap;
use std::alloc::{AllocError, Global};

/// The line of a summary, with its LF (docs/FORMATS.md, "The report"). NoMemory is its one refusal.
#[tactic(auto, unfolding(crate::specs::Texts::summary_line))]
pub fn summary_text(alloc: Global, summary: &Summary) -> Result<String, NoMemory>
    ensures { IfOk result (λ line. string_bytes line ≡ summary_line summary.now) }
{
    let mut line = String::new(alloc);
    line.push_str(summary.name.as_str())?;
    line.push_str(": first ")?;
    push_first(&mut line, summary.first)?;
    line.push_str("; off ")?;
    push_tick(&mut line, summary.off, "never")?;
    line.push_str("; trap ")?;
    push_trap(&mut line, summary.trap)?;
    line.push_str("; excess ")?;
    push_tick(&mut line, summary.confirmed, "none")?;
    write!(line, "; bound {}\n", summary.bound)?;
    Ok(line)
}

/// The last line of a report on these runs, with its LF (docs/FORMATS.md, "The report"). NoMemory is its one
/// refusal.
#[tactic(auto, unfolding(crate::specs::Texts::report_end))]
pub fn report_end_text(alloc: Global, runs: &[Summary]) -> Result<String, NoMemory>
    ensures { IfOk result (λ line. string_bytes line ≡ report_end runs.now) }
{
    let (count, detected, off) = (runs.len(), count_detected(runs), count_off(runs));
    let line = format!(in alloc; "runs {count}; detected {detected}; off {off}\n")?;
    Ok(line)
}

/// How many runs have a first detection.
fn count_detected(runs: &[Summary]) -> usize
    ensures { result ≡ count_by (λ run. is_some run.first) runs.now }
{
    runs.iter().filter(|run| run.first.is_some()).count()
}

/// How many runs have a tick at which the stages are off.
fn count_off(runs: &[Summary]) -> usize
    ensures { result ≡ count_by (λ run. is_some run.off) runs.now }
{
    runs.iter().filter(|run| run.off.is_some()).count()
}

/// Appends the first detection.
#[tactic(auto, unfolding(crate::specs::Texts::first_text))]
fn push_first(line: &mut String, first: Option<(Watch, u32)>) -> Result<(), AllocError>
    ensures { OnOk result (string_bytes line.new ≡ string_bytes line.old ++ first_text first) }
{
    match first {
        Some((watch, tick)) => write!(line, "{} at {tick}", watch.name()),
        None => line.push_str("none"),
    }
}

/// Appends a tick, or this word where there is none.
#[tactic(auto, unfolding(crate::specs::Texts::at_text))]
fn push_tick(line: &mut String, tick: Option<u32>, without: &str) -> Result<(), AllocError>
    ensures { OnOk result (string_bytes line.new ≡ string_bytes line.old ++ at_text without.now tick) }
{
    match tick {
        Some(tick) => write!(line, "at {tick}"),
        None => line.push_str(without),
    }
}

/// Appends the trap of level 1.
#[tactic(auto, unfolding(crate::specs::Texts::trap_text))]
fn push_trap(line: &mut String, trap: Option<(Trap, u32)>) -> Result<(), AllocError>
    ensures { OnOk result (string_bytes line.new ≡ string_bytes line.old ++ trap_text trap) }
{
    match trap {
        Some((kind, tick)) => write!(line, "{} at {tick}", trap_name(kind)),
        None => line.push_str("none"),
    }
}

/// The name of a trap's kind (docs/FORMATS.md, "The report").
#[tactic(auto, unfolding(crate::specs::Texts::trap_name))]
pub fn trap_name(kind: Trap) -> &'static str
    ensures { result.now ≡ trap_name kind }
{
    match kind {
        Trap::Fetch => "fetch",
        Trap::Load => "load",
        Trap::Store => "store",
        Trap::Illegal => "illegal",
    }
}
