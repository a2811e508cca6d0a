// The lines of standard input.
ghost use Rattle.std.specs.Prelude.{◌≡◌, false, IfOk, IsOkUnless, option_map};
ghost use Rattle.eg_base.specs.declared.store.ReadRefusal.TheVariants.{Memory};
ghost use Rattle.eg_lines.specs.Lines.{lines_in};

use crate::{Lines, ReadLines};
use eg_base::ReadRefusal;
use std::alloc::Global;
use std::io::{BufReader, Read};
use std::marker::Model;

/// The lines of a reader such as standard input. Its buffer is taken as the first line is asked for, so that
/// a command that takes no lines needs none and reads none. Where there is no memory for it, that call is
/// refused and nothing is read.
///
/// Contracts see what is shown (`ShownLines`): the lines of the bytes that the reader tells, and of which the
/// lines that came are gone. Standard input tells none.
#[derive(Drop)]
pub struct LateLines<R: Read + Copy + Drop> {
    alloc: Global,
    reader: R,
    lines: Option<ReadLines<BufReader<R>>>,
}

impl<R: Read + Copy + Drop> Model for LateLines<R> {
    ghost use Rattle.std.specs.Prelude.{IsSome, IfSome};
    ghost use Rattle.eg_lines.specs.Lines.{ShownLines};
    ghost use Rattle.eg_lines.specs.Late.{shown_late};

    ghost Value = { ShownLines };

    ghost view = { λ s. shown_late (R.remaining s.reader) s.lines };

    ghost invariant = { λ s. IsSome (R.remaining s.reader) → IfSome s.lines (λ made. IsSome made.lines) };
}

impl<R: Read + Copy + Drop> LateLines<R> {
    /// The lines of this reader. Takes no memory.
    ///
    /// Claim 72 (`shown`).
    pub fn new(alloc: Global, reader: R) -> LateLines<R>
        ensures shown { ⟦<LateLines<R> as Lines>⟧.shows result
            ≡ record { lines = option_map lines_in (R.remaining reader); faults = 0; sure = false } }
    {
        LateLines {
            alloc,
            reader,
            lines: None,
        }
    }
}

impl<R: Read + Copy + Drop> Lines for LateLines<R> {
    ghost shows = { λ s. s };

    fn next(&mut self, most: usize, into: &mut Vec<u8>) -> Result<bool, ReadRefusal> {
        match &mut self.lines {
            Some(lines) => lines.next(most, into),
            None => {
                let mut lines = buffered(self.alloc, self.reader)?;
                let outcome = lines.next(most, into);
                self.lines = Some(lines);
                outcome
            }
        }
    }
}

/// The lines of this reader behind a buffer, for which memory may run out.
fn buffered<R: Read + Drop>(
    alloc: Global,
    reader: R,
) -> Result<ReadLines<BufReader<R>>, ReadRefusal>
    ensures refused { IsOkUnless result Memory }
    ensures lines { IfOk result (λ made. made.lines ≡ option_map lines_in (R.remaining reader)) }
    ensures faults { IfOk result (λ made. made.faults ≡ 0) }
{
    match BufReader::new(alloc, reader) {
        Ok(reader) => Ok(ReadLines::new(alloc, reader)),
        Err(_) => Err(ReadRefusal::Memory),
    }
}
