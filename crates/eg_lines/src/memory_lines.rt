// Lines in memory, of which a chosen read fails.
ghost use Rattle.std.specs.Prelude.{◌≡◌, ◌<◌, ◌≤◌, ◌+◌, ◌↔◌, vec_len, vec_capacity, Some, None, false, IsTrue, IfOk, OnErr, IsErrOf};
ghost use Rattle.eg_base.specs.declared.store.ReadRefusal.TheVariants.{Failed, Memory};
ghost use Rattle.eg_lines.specs.Sources.{LinesState, next_fails, after_next, Gives};
ghost use Rattle.eg_lines.specs.Lines.{lines_in};

use crate::Lines;
use crate::text_lines::TextLines;
use eg_base::ReadRefusal;
use std::marker::Model;

/// The lines of a text in memory, of which the read of a chosen number fails, to try what happens then. They
/// are told, and the source isn't sure.
///
/// Contracts see a `LinesState`: the lines still to come, the number of the read that is to fail, and the
/// counts of reads and faults, which stop at the last value of a u64.
#[derive(Drop)]
pub struct MemoryLines {
    lines: TextLines,
    failing: Option<u64>,
    reads: u64,
    faults: u64,
}

impl Model for MemoryLines {
    ghost use Rattle.eg_lines.specs.Sources.{LinesState};

    ghost Value = { LinesState };

    ghost view = { λ s. record {
      lines = s.lines;
      failing = s.failing;
      reads = s.reads;
      faults = s.faults;
    } };
}

impl MemoryLines {
    /// The lines of this text, of which no read is to fail. Takes no memory.
    pub fn new(text: Vec<u8>) -> MemoryLines
        ensures state { result
            ≡ record { lines = lines_in text.items; failing = None; reads = 0; faults = 0 } }
        ensures shown { ⟦<MemoryLines as Lines>⟧.shows result
            ≡ record { lines = Some (lines_in text.items); faults = 0; sure = false } }
    {
        MemoryLines {
            lines: TextLines::new(text),
            failing: None,
            reads: 0,
            faults: 0,
        }
    }

    /// Lets the read of this number fail, the first being 0, and no other.
    pub fn fail_at(&mut self, number: u64)
        ensures { self.new ≡ record self.old { failing = Some number } }
    {
        self.failing = Some(number);
    }

    /// Counts a read, and the fault where it is the chosen one. Answers whether it fails.
    fn count(&mut self) -> bool
        ensures fails { result ≡ next_fails self.old }
        ensures state { self.new ≡ after_next self.old self.old.lines }
        ensures count { self.old.faults ≤ self.new.faults }
    {
        let fails = match self.failing {
            Some(number) => number == self.reads,
            None => false,
        };
        self.reads = self.reads.saturating_add(1);
        if fails {
            self.faults = self.faults.saturating_add(1);
        }
        fails
    }
}

impl Lines for MemoryLines {
    ghost shows = { λ s. record { lines = Some s.lines; faults = s.faults; sure = false } };

    fn next(&mut self, most: usize, into: &mut Vec<u8>) -> Result<bool, ReadRefusal>
        // Each read is counted. A fault is counted exactly if the read is the chosen one.
        ensures failed { IsErrOf result Failed ↔ IsTrue (next_fails self.old) }
        ensures state { self.new ≡ after_next self.old self.new.lines }
        ensures count { self.old.faults ≤ self.new.faults }

        // Memory runs out only for a buffer without room for `most` bytes.
        ensures full { IsErrOf result Memory → vec_capacity into.old < vec_len into.old + most }

        // What is left, and what the buffer holds afterwards.
        ensures given { IfOk result
            (λ came. Gives most self.old.lines came self.new.lines into.old.items into.new.items) }
        ensures kept { OnErr result (self.new.lines ≡ self.old.lines) }
        ensures unchanged { OnErr result (into.new.items ≡ into.old.items) }
    {
        if self.count() {
            return Err(ReadRefusal::Failed);
        }
        self.lines.next(most, into)
    }
}
