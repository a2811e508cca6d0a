// What a partner answers at one tick.
ghost use Rattle.std.specs.Prelude.{◌≡◌, ◌<◌, ℕ, List, length, take, None, IsSome};
ghost use Rattle.eg_input.specs.Answering.{answer_of};
ghost use Rattle.eg_input.specs.declared.answered.TheConstants.{MOST_ANSWER_BYTES};

use crate::cursor::{first_number, first_truth};
use crate::field::number_of;
use crate::line::before_return;
use eg_num::Drive;
use eg_plant::PartnerStep;

/// What a partner answers at one tick (docs/FORMATS.md, "The lines of `couple`").
#[derive(Clone, Copy)]
pub struct PartnerAnswer {
    /// The drive row of the tick.
    pub drive: Drive,
    /// What the partner's engine shows after its step.
    pub told: PartnerStep,
}

/// How many bytes the longest line has that answers: seven numbers of five digits, two truth values, the
/// commas between, and a carriage return. The line feed doesn't count.
pub const MOST_ANSWER_BYTES: usize = 46;

/// What a line answers, without its line feed, or None where it is no answer.
///
/// Claim 66 (F36): A line is taken as an answer exactly if docs/FORMATS.md says that it is one, and what it
/// answers is what docs/FORMATS.md says.
#[tactic(auto, unfolding(crate::specs::Answering::answer_of))]
pub fn answer_of(line: &[u8]) -> Option<PartnerAnswer>
    ensures { result ≡ answer_of line.now }
{
    let (pedal, rest) = first_number(before_return(line), b',', 1000)?;
    let (speed, rest) = first_number(rest, b',', 8000)?;
    let (raise, rest) = first_number(rest, b',', 10_000)?;
    let (reset, rest) = first_truth(rest, b',')?;
    let (brake, rest) = first_truth(rest, b',')?;
    let (position, rest) = first_number(rest, b',', 1000)?;
    let (load_1, rest) = first_number(rest, b',', u16::MAX)?;
    let (load_2, rest) = first_number(rest, b',', u16::MAX)?;
    let torque = number_of(rest, u16::MAX)?;
    Some(PartnerAnswer {
        drive: Drive::new(pedal, speed, raise, reset, brake)?,
        told: PartnerStep::new(position, [load_1, load_2], torque),
    })
}

/// Does nothing when it runs. Its clauses are laws of what `answer_of` says of a line: one of more than
/// `MOST_ANSWER_BYTES` bytes answers nothing, one of so many answers, and a front of more gives what the line
/// gives. So who reads a line need take no more than one byte beyond them, and no fewer.
pub fn long_lines_answer_nothing()
    ensures none { (line : List ℕ) → MOST_ANSWER_BYTES < length line → answer_of line ≡ None }
    ensures longest { (line : List ℕ) × (length line ≡ MOST_ANSWER_BYTES) × IsSome (answer_of line) }
    ensures seen { (line : List ℕ) (n : ℕ) → MOST_ANSWER_BYTES < n →
        answer_of (take n line) ≡ answer_of line }
{}
