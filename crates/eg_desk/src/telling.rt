// `bound [--cal NAME]` and `limits [--cal NAME]`: what a calibration comes to.
ghost use Rattle.std.specs.Prelude.{◌≡◌, ◌++◌, ℕ, List, IfOk, OnOk, codes, string_bytes};
ghost use Rattle.eg_outcome.specs.Changes.{change_of};
ghost use Rattle.eg_outcome.specs.Outcomes.{LineEnds};
ghost use Rattle.eg_desk.specs.Ends.{TellsLimits};
ghost use Rattle.eg_desk.specs.Texts.{bound_text, counts_text, limits_text, number_or_none};

use crate::{Limits, limits_of};
use eg_base::{NoMemory, Sink};
use eg_outcome::{Outcome, put_text};
use eg_values::Calibration;
use std::alloc::{AllocError, Global};

/// Puts the worst-case reaction by this calibration, and the bound for lapses (docs/FORMATS.md, "Commands").
pub fn put_bound<K: Sink>(alloc: Global, calibration: &Calibration, out: &mut K) -> Outcome
    ensures { TellsLimits bound_text calibration.now (change_of K.shows out.old out.new) result }
{
    put_made(bound_text(alloc, &limits_of(calibration)), out)
}

/// Puts all that this calibration comes to (docs/FORMATS.md, "The text of `limits`").
pub fn put_limits<K: Sink>(alloc: Global, calibration: &Calibration, out: &mut K) -> Outcome
    ensures { TellsLimits limits_text calibration.now (change_of K.shows out.old out.new) result }
{
    put_made(limits_text(alloc, &limits_of(calibration)), out)
}

/// Puts these lines, or answers Memory where memory ran out while they were made.
fn put_made<K: Sink>(made: Result<String, NoMemory>, out: &mut K) -> Outcome
    ensures { (lines : List ℕ) → IfOk made (λ text. string_bytes text ≡ lines) →
        LineEnds lines (change_of K.shows out.old out.new) result }
{
    match made {
        Ok(text) => put_text(text.as_bytes(), out),
        Err(NoMemory) => Outcome::Memory,
    }
}

/// The lines of the worst-case reaction and of the bound for lapses.
fn bound_text(alloc: Global, limits: &Limits) -> Result<String, NoMemory>
    ensures { IfOk result (λ text. string_bytes text ≡ bound_text limits.now) }
{
    let mut text = String::new(alloc);
    write!(text, "reaction {}\n", limits.reaction)?;
    push_line(&mut text, "lapse ", limits.lapse)?;
    Ok(text)
}

/// The lines of what is counted.
fn counts_text(alloc: Global, limits: &Limits) -> Result<String, NoMemory>
    ensures { IfOk result (λ text. string_bytes text ≡ counts_text limits.now) }
{
    let mut text = bound_text(alloc, limits)?;
    write!(text, "verdicts {}\n", limits.verdicts)?;
    write!(text, "excess {}\ntest {}\n", limits.excess, limits.test)?;
    push_line(&mut text, "spacing ", limits.spacing)?;
    Ok(text)
}

/// The lines of all limits.
fn limits_text(alloc: Global, limits: &Limits) -> Result<String, NoMemory>
    ensures { IfOk result (λ text. string_bytes text ≡ limits_text limits.now) }
{
    let mut text = counts_text(alloc, limits)?;
    write!(text, "stretch {}\n", limits.stretch)?;
    write!(text, "peak {}\n", limits.peak)?;
    push_line(&mut text, "ramp ", limits.ramp)?;
    push_line(&mut text, "missed ", limits.missed)?;
    Ok(text)
}

/// Appends a line: these words, and the number, or `none` where there is no number.
#[tactic(auto, unfolding(crate::specs::Texts::number_or_none))]
fn push_line(text: &mut String, says: &str, number: Option<u32>) -> Result<(), AllocError>
    ensures { OnOk result (string_bytes text.new
        ≡ string_bytes text.old ++ (says.now ++ number_or_none number ++ codes "\n")) }
{
    match number {
        Some(number) => write!(text, "{says}{number}\n"),
        None => write!(text, "{says}none\n"),
    }
}
