// `couple`: the unit of a run around a partner's engine.
ghost use Rattle.std.specs.Prelude.{◌≡◌, ◌≤◌, length, Ok, Err, if◌then◌else◌};
ghost use Rattle.eg_guard.specs.declared.regions.TheConstants.{DATA as CODE_END};
ghost use Rattle.eg_fault.specs.Faults.{IsNoneOrValid};
ghost use Rattle.eg_input.specs.declared.fault.TraceFault.TheVariants.{Long};
ghost use Rattle.eg_outcome.specs.Changes.{change, change_of};
ghost use Rattle.eg_outcome.specs.Lines.{LinePut, end_of};
ghost use Rattle.eg_outcome.specs.Outcomes.{TellsNoMemory};
ghost use Rattle.eg_outcome.specs.declared.outcome.Outcome.TheVariants.{Refused};
ghost use Rattle.eg_outcome.specs.declared.outcome.Refusal.TheVariants.{Check};
ghost use Rattle.eg_stream.specs.Coupled.{unit_of};
ghost use Rattle.eg_stream.specs.Texts.{first_line, coupled_line};
ghost use Rattle.eg_stream.specs.Couplings.{CouplingEnds, coupling};

use crate::line::{coupled_header, push_coupled, push_first};
use crate::partner::Partner;
use crate::ticking::{answered_row, coupled_controller, next_commands};
use eg_base::{NoMemory, Sink};
use eg_input::TraceFault;
use eg_lines::Lines;
use eg_outcome::{Outcome, Refusal, end_of, put_or_end};
use eg_plan::RunInput;
use eg_record::Row;
use eg_tick::{Commands, Ticks};
use eg_values::Calibration;
use std::alloc::Global;

/// The most answers of a run.
const MOST_ANSWERS: u32 = 20_000;

/// Does `couple` by a calibration and an input of a run that were read (docs/FORMATS.md, "Commands"): reads
/// answers of a partner, of each of which it makes a tick and writes its row before it reads the next. Ticks
/// are counted in `steps`. Of the input it uses the image, the fault and the slice plan.
#[inline(never)]
pub fn couple_lines<L: Lines, K: Sink>(
    alloc: Global,
    calibration: &Calibration,
    input: &RunInput,
    lines: &mut L,
    out: &mut K,
    steps: &mut Ticks,
) -> Outcome
    requires image { length input.now.image ≤ CODE_END }
    requires fault { IsNoneOrValid input.now.plan.fault }
    ensures ends { CouplingEnds (unit_of calibration.now input.now)
        (coupling (change_of L.shows lines.old lines.new) (change_of K.shows out.old out.new)
        (change steps.old steps.new)) result }
    ensures no_memory { TellsNoMemory result }
{
    end_of(couple(alloc, calibration, input, lines, out, steps))
}

/// Couples a run: the header, the line before the first tick, and for each answer its row, put before the
/// next answer is read.
#[inline(never)]
fn couple<L: Lines, K: Sink>(
    alloc: Global,
    calibration: &Calibration,
    input: &RunInput,
    lines: &mut L,
    out: &mut K,
    steps: &mut Ticks,
) -> Result<(), Outcome>
    requires image { length input.now.image ≤ CODE_END }
    requires fault { IsNoneOrValid input.now.plan.fault }
    ensures { CouplingEnds (unit_of calibration.now input.now)
        (coupling (change_of L.shows lines.old lines.new) (change_of K.shows out.old out.new)
        (change steps.old steps.new)) (end_of result) }
{
    // So that the proof knows that both counts fit 64 bits.
    let _numbers = (steps.count(), steps.sum());
    let mut controller = coupled_controller(calibration, input);
    let mut partner = Partner::new(alloc, calibration.rules().kt);
    let mut text = Vec::new(alloc);
    put_or_end(coupled_header().as_bytes(), out)?;
    let mut told = next_commands(&controller);
    put_first(&mut text, &told, out)?;
    for taken in 0..MOST_ANSWERS {
        let Some(answer) = partner.next(taken + 1, &told, lines)? else {
            return Ok(());
        };
        let row = answered_row(&mut controller, &input.plan.slices, &answer, steps);
        told = next_commands(&controller);
        put_row(&mut text, &row, &told, out)?;
    }
    unless_more(partner.read(lines)?)
}

/// Refuses a line that comes behind the last that may.
fn unless_more(came: bool) -> Result<(), Outcome>
    ensures { result ≡ if came then Err (Refused (Check Long)) else Ok tt }
{
    if came {
        return Err(Outcome::Refused(Refusal::Check(TraceFault::Long)));
    }
    Ok(())
}

/// Puts the line before the first tick, which is made in this buffer.
fn put_first<K: Sink>(text: &mut Vec<u8>, next: &Commands, out: &mut K) -> Result<(), Outcome>
    ensures { LinePut (first_line next.now) (change_of K.shows out.old out.new) result }
{
    text.clear();
    match push_first(text, next) {
        Ok(()) => put_or_end(text, out),
        Err(NoMemory) => Err(Outcome::Memory),
    }
}

/// Puts the line of a row and of what is commanded next, which is made in this buffer.
fn put_row<K: Sink>(
    text: &mut Vec<u8>,
    row: &Row,
    next: &Commands,
    out: &mut K,
) -> Result<(), Outcome>
    ensures { LinePut (coupled_line row.now next.now) (change_of K.shows out.old out.new) result }
{
    text.clear();
    match push_coupled(text, row, next) {
        Ok(()) => put_or_end(text, out),
        Err(NoMemory) => Err(Outcome::Memory),
    }
}
