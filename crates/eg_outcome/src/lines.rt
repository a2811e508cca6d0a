// The lines that a command reads one by one, and what it puts between them.
ghost use Rattle.std.specs.Prelude.{◌≡◌, IsTrue, IsErrOf};
ghost use Rattle.eg_outcome.specs.Changes.{change_of};
ghost use Rattle.eg_outcome.specs.Lines.{LineComes, LinePut, end_of};
ghost use Rattle.eg_outcome.specs.declared.outcome.Outcome.TheVariants.{Memory};

use crate::{Outcome, Role, put_line};
use eg_base::{ReadRefusal, Sink};
use eg_lines::Lines;

/// Reads the next line in place of what the buffer held: its first `most` bytes, or all of it where it is
/// shorter. Answers whether there was one, or how the call ends.
#[inline(always)]
pub fn next_line<L: Lines>(most: usize, lines: &mut L, line: &mut Vec<u8>) -> Result<bool, Outcome>
    ensures { LineComes most (change_of L.shows lines.old lines.new) line.new.items result }
{
    line.clear();
    match lines.next(most, line) {
        Ok(came) => Ok(came),
        Err(ReadRefusal::Failed) => Err(Outcome::ReadFault { file: Role::Check }),
        Err(ReadRefusal::Memory) => Err(Outcome::Memory),
    }
}

/// Puts a line, as `put_line` does, or answers how the call ends where it is refused.
pub fn put_or_end<K: Sink>(line: &[u8], out: &mut K) -> Result<(), Outcome>
    ensures put { LinePut line.now (change_of K.shows out.old out.new) result }

    // Memory doesn't run out over a sure output, which stays so.
    ensures sure { IsTrue (K.shows out.old).sure → ¬ IsErrOf result Memory }
    ensures stays_sure { (K.shows out.new).sure ≡ (K.shows out.old).sure }
{
    match put_line(line, out) {
        Outcome::Done => Ok(()),
        end => Err(end),
    }
}

/// How a call ends with what its work answers.
pub fn end_of(done: Result<(), Outcome>) -> Outcome
    ensures { result ≡ end_of done }
{
    match done {
        Ok(()) => Outcome::Done,
        Err(end) => end,
    }
}
