// The lines on a replay.
ghost use Rattle.std.specs.Prelude.{◌≡◌, ◌++◌, codes, string_bytes, IfOk, OnOk};
ghost use Rattle.eg_num.specs.Windows.{WeightParts};
ghost use Rattle.eg_record.specs.Texts.{at_text};
ghost use Rattle.eg_replay.specs.Texts.{last_lines, pair_lines, replay_text, surplus_text, watch_line};

use crate::Findings;
use eg_base::NoMemory;
use eg_num::Weights;
use std::alloc::{AllocError, Global};

/// The text of `replay`: nine lines, each with its LF, on what the ticks come to (docs/FORMATS.md, "The text
/// of `replay`"). The pairs and the torque are debounced by these weights. NoMemory is its one refusal.
#[tactic(auto, unfolding(crate::specs::Texts::replay_text))]
pub fn replay_text(
    alloc: Global,
    pair: &Weights,
    torque: &Weights,
    findings: &Findings,
) -> Result<String, NoMemory>
    ensures { IfOk result (λ text. string_bytes text ≡ replay_text pair.now torque.now findings.now) }
{
    let mut text = String::new(alloc);
    write!(text, "ticks {}\n", findings.ticks)?;
    push_pairs(&mut text, findings, pair.limit())?;
    let (found, greatest) = (findings.torque, findings.greatest.torque);
    push_watch(&mut text, "torque", found, greatest, torque.limit())?;
    push_end(&mut text, findings)?;
    Ok(text)
}

/// Appends the lines of the four pairs, whose debouncers have this limit.
#[tactic(auto, unfolding(crate::specs::Texts::pair_lines))]
fn push_pairs(text: &mut String, findings: &Findings, limit: u16) -> Result<(), AllocError>
    ensures { OnOk result (string_bytes text.new ≡ string_bytes text.old ++ pair_lines limit findings.now) }
{
    let greatest = &findings.greatest;
    push_watch(text, "pedal", findings.pedal, greatest.pedal, limit)?;
    push_watch(text, "plate", findings.plate, greatest.plate, limit)?;
    push_watch(text, "load", findings.load, greatest.load, limit)?;
    push_watch(text, "speed", findings.speed, greatest.speed, limit)
}

/// Appends the line of a watch: the tick at which it is found, and the greatest that its debouncer weighed,
/// of its limit.
#[tactic(auto, unfolding(crate::specs::Texts::watch_line))]
fn push_watch(
    text: &mut String,
    name: &str,
    found: Option<u64>,
    greatest: u16,
    limit: u16,
) -> Result<(), AllocError>
    ensures { OnOk result (string_bytes text.new
        ≡ string_bytes text.old ++ watch_line name.now found greatest limit) }
{
    write!(text, "{name} ")?;
    push_tick(text, found, "none")?;
    write!(text, "; greatest {greatest} of {limit}\n")?;
    Ok(())
}

/// Appends the lines of the first trip, of the longest stretch and of the greatest surplus.
#[tactic(auto, unfolding(crate::specs::Texts::last_lines))]
fn push_end(text: &mut String, findings: &Findings) -> Result<(), AllocError>
    ensures { OnOk result (string_bytes text.new ≡ string_bytes text.old ++ last_lines findings.now) }
{
    text.push_str("trip ")?;
    push_tick(text, findings.trip, "never")?;
    write!(text, "\nstretch {}\nsurplus ", findings.stretch)?;
    push_surplus(text, findings.surplus)?;
    text.push_str("\n")
}

/// Appends a tick, or this word where there is none.
#[tactic(auto, unfolding(eg_record::specs::Texts::at_text))]
fn push_tick(text: &mut String, tick: Option<u64>, without: &str) -> Result<(), AllocError>
    ensures { OnOk result (string_bytes text.new ≡ string_bytes text.old ++ at_text without.now tick) }
{
    match tick {
        Some(tick) => write!(text, "at {tick}"),
        None => text.push_str(without),
    }
}

/// Appends the greatest surplus, or `none`.
#[tactic(auto, unfolding(crate::specs::Texts::surplus_text))]
fn push_surplus(text: &mut String, surplus: Option<i32>) -> Result<(), AllocError>
    ensures { OnOk result (string_bytes text.new ≡ string_bytes text.old ++ surplus_text surplus) }
{
    match surplus {
        Some(number) => write!(text, "{number}"),
        None => text.push_str("none"),
    }
}
