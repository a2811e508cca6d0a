// Lines in memory that are sure.
ghost use Rattle.std.specs.Prelude.{◌≡◌, ◌<◌, ◌+◌, vec_len, vec_capacity, Some, true, IfOk, OnErr, IsOkUnless};
ghost use Rattle.eg_base.specs.declared.store.ReadRefusal.TheVariants.{Memory};
ghost use Rattle.eg_lines.specs.Sources.{Gives};
ghost use Rattle.eg_lines.specs.Lines.{lines_in};

use crate::Lines;
use crate::text_lines::TextLines;
use eg_base::ReadRefusal;
use std::marker::Model;

/// The lines of a text in memory, of which no read fails. They are told, and the source is sure.
///
/// Contracts see the list of the lines still to come.
#[derive(Drop)]
pub struct SureLines {
    lines: TextLines,
}

impl Model for SureLines {
    ghost use Rattle.std.specs.Prelude.{ℕ, List};

    ghost Value = { List (List ℕ) };

    ghost view = { λ s. s.lines };
}

impl SureLines {
    /// The lines of this text. Takes no memory.
    pub fn new(text: Vec<u8>) -> SureLines
        ensures state { result ≡ lines_in text.items }
        ensures shown { ⟦<SureLines as Lines>⟧.shows result
            ≡ record { lines = Some (lines_in text.items); faults = 0; sure = true } }
    {
        SureLines {
            lines: TextLines::new(text),
        }
    }
}

impl Lines for SureLines {
    ghost shows = { λ s. record { lines = Some s; faults = 0; sure = true } };

    fn next(&mut self, most: usize, into: &mut Vec<u8>) -> Result<bool, ReadRefusal>
        // Refused only where memory runs out, for a buffer without room for `most` bytes, and nothing changes
        // then.
        ensures refused { IsOkUnless result Memory }
        ensures full { OnErr result (vec_capacity into.old < vec_len into.old + most) }
        ensures given { IfOk result
            (λ came. Gives most self.old came self.new into.old.items into.new.items) }
        ensures kept { OnErr result (self.new ≡ self.old) }
        ensures unchanged { OnErr result (into.new.items ≡ into.old.items) }
    {
        self.lines.next(most, into)
    }
}
