// The lines of a partner, as they come.
ghost use Rattle.std.specs.Prelude.{◌≡◌, ◌+◌, List, length};
ghost use Rattle.eg_outcome.specs.Changes.{change_of};
ghost use Rattle.eg_outcome.specs.Lines.{LineComes};
ghost use Rattle.eg_outcome.specs.declared.outcome.Outcome.TheVariants.{Refused};
ghost use Rattle.eg_outcome.specs.declared.outcome.Refusal.TheVariants as refusal;
ghost use Rattle.eg_input.specs.declared.answered.PartnerAnswer.{PartnerAnswer as SomeAnswer};
ghost use Rattle.eg_input.specs.declared.answered.TheConstants.{MOST_ANSWER_BYTES};
ghost use Rattle.eg_model.specs.History.{Setting, Entry};
ghost use Rattle.eg_tick.specs.Commanding.{commanded_at, commands_next};
ghost use Rattle.eg_stream.specs.Coupled.{CoupledUnit, entries_by, covers, taken};
ghost use Rattle.eg_stream.specs.Inner.Running.{AnswerComes, outcome_of};

use eg_input::{PartnerAnswer, TraceFault, answer_of};
use eg_lines::Lines;
use eg_num::Drive;
use eg_outcome::{AnswerFault, Outcome, Refusal, next_line};
use eg_plant::PartnerStep;
use eg_tick::Commands;
use eg_torque::actual;
use std::alloc::Global;

/// The lines of a partner (docs/FORMATS.md, "The lines of `couple`"): room for one, and the `kt` by which
/// its loads are judged.
#[derive(Drop)]
pub(crate) struct Partner {
    line: Vec<u8>,
    kt: u16,
}

impl Partner {
    /// A partner of which no line was read. It takes no memory.
    pub(crate) fn new(alloc: Global, kt: u16) -> Partner
        ensures { result.kt ≡ kt }
    {
        Partner {
            line: Vec::new(alloc),
            kt,
        }
    }

    /// Reads the next answer, that of the tick of which this was told; None where no line is left. Else it
    /// answers how the call ends: a line that isn't taken is refused by its number, the first being 1.
    #[inline(always)]
    pub(crate) fn next<L: Lines>(
        &mut self,
        number: u32,
        told: &Commands,
        lines: &mut L,
    ) -> Result<Option<PartnerAnswer>, Outcome>
        ensures next { (unit : CoupledUnit) (before : List SomeAnswer)
            → told.now ≡ commands_next unit.setting (entries_by unit before)
            → number ≡ length before + 1 → unit.setting.cal.rules.kt ≡ self.old.kt
            → AnswerComes unit before (change_of L.shows lines.old lines.new) result }
        ensures kt { self.new.kt ≡ self.old.kt }
    {
        if !self.read(lines)? {
            return Ok(None);
        }
        Ok(Some(self.take(number, told)?))
    }

    /// Reads a line, if there is one, in place of what the buffer held: as much of it as an answer may
    /// have, and one byte more.
    #[inline(always)]
    pub(crate) fn read<L: Lines>(&mut self, lines: &mut L) -> Result<bool, Outcome>
        ensures read { LineComes (MOST_ANSWER_BYTES + 1) (change_of L.shows lines.old lines.new)
            self.new.line.items result }
        ensures kt { self.new.kt ≡ self.old.kt }
    {
        next_line(eg_input::MOST_ANSWER_BYTES + 1, lines, &mut self.line)
    }

    /// The answer that the line gives which was read, or how the call ends with it.
    #[inline(always)]
    fn take(&self, number: u32, told: &Commands) -> Result<PartnerAnswer, Outcome>
        ensures { (unit : CoupledUnit) (before : List SomeAnswer)
            → told.now ≡ commands_next unit.setting (entries_by unit before)
            → number ≡ length before + 1 → unit.setting.cal.rules.kt ≡ self.now.kt
            → result ≡ outcome_of (length before + 1) (taken unit before self.now.line.items) }
    {
        let Some(answer) = answer_of(&self.line) else {
            return Err(Outcome::Refused(Refusal::Check(TraceFault::Row { line: number })));
        };
        if !covers(self.kt, &answer.told) {
            return Err(refused(AnswerFault::LoadBelowTorque { record: number }));
        }
        if answer.told.torque() != 0 && !is_on(told, &answer.drive) {
            return Err(refused(AnswerFault::TorqueWhileOff { record: number }));
        }
        Ok(answer)
    }
}

/// Whether the stages are on at a tick with this row, of which this was told.
fn is_on(told: &Commands, drive: &Drive) -> bool
    ensures { (s : Setting) (h : List Entry) → told.now ≡ commands_next s h
        → result ≡ (commanded_at s drive.now h).on }
{
    told.on && !drive.reset()
}

/// The line is refused by this law.
fn refused(fault: AnswerFault) -> Outcome
    ensures { result ≡ Refused (refusal.Answer fault) }
{
    Outcome::Refused(Refusal::Answer(fault))
}

/// Whether the estimate of each load is at least the torque.
#[tactic(auto, unfolding(crate::specs::Coupled::covers))]
fn covers(kt: u16, told: &PartnerStep) -> bool
    ensures { result ≡ covers kt told.now }
{
    let loads = told.loads();
    told.torque() <= actual(loads[0], kt) && told.torque() <= actual(loads[1], kt)
}
