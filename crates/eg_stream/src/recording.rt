// The lines of a recording, as they come.
ghost use Rattle.std.specs.Prelude.{◌≡◌, ◌+◌, ◌<◌, ◌^◌};
ghost use Rattle.eg_outcome.specs.Changes.{change_of};
ghost use Rattle.eg_outcome.specs.declared.outcome.Outcome.TheVariants.{Refused};
ghost use Rattle.eg_outcome.specs.declared.outcome.Refusal.TheVariants.{Check};
ghost use Rattle.eg_stream.specs.Inner.Reading.{columns_or_end, columns_or_header, RecordingBegins, RecordingGoesOn};

use eg_input::{Columns, MOST_BYTES, Recorded, TraceFault, columns_of, recorded_of};
use eg_lines::Lines;
use eg_outcome::{Outcome, Refusal, next_line};
use std::alloc::Global;

/// The lines of a recording (docs/FORMATS.md, "Recorded readings"): its columns, which the first line names,
/// and room for a line.
#[derive(Drop)]
pub(crate) struct Recording {
    columns: Columns,
    line: Vec<u8>,
}

impl Recording {
    /// Reads the first line, or answers how the call ends without it.
    pub(crate) fn begin<L: Lines>(alloc: Global, lines: &mut L) -> Result<Recording, Outcome>
        ensures { RecordingBegins (change_of L.shows lines.old lines.new) result }
    {
        let mut line = Vec::new(alloc);
        let came = next_line(MOST_BYTES + 1, lines, &mut line);
        match columns_in(came, &line) {
            Ok(columns) => Ok(Recording { columns, line }),
            Err(end) => Err(end),
        }
    }

    /// Reads the line of the tick of this number, and tells what it writes; None where no line is left. Else
    /// it answers how the call ends.
    #[inline(always)]
    pub(crate) fn next<L: Lines>(
        &mut self,
        tick: u32,
        lines: &mut L,
    ) -> Result<Option<Recorded>, Outcome>
        requires few { tick + 2 < 2 ^ 32 }
        ensures next { RecordingGoesOn self.old.columns tick (change_of L.shows lines.old lines.new) result }
        ensures columns { self.new.columns ≡ self.old.columns }
    {
        if !next_line(MOST_BYTES + 1, lines, &mut self.line)? {
            return Ok(None);
        }
        match recorded_of(&self.line, self.columns) {
            Some(recorded) => Ok(Some(recorded)),
            None => Err(refused(TraceFault::Row { line: tick + 2 })),
        }
    }
}

/// The columns that the first line names, if one came, or how the call ends without them: Memory comes only
/// with what came (docs/FORMATS.md, "Outcomes").
fn columns_in(came: Result<bool, Outcome>, line: &[u8]) -> Result<Columns, Outcome>
    ensures { result ≡ columns_or_end came line.now }
{
    match came {
        Ok(true) => columns_or_header(columns_of(line)),
        Ok(false) => columns_or_header(None),
        Err(end) => Err(end),
    }
}

/// These columns, or the fault Header where there are none.
fn columns_or_header(columns: Option<Columns>) -> Result<Columns, Outcome>
    ensures { result ≡ columns_or_header columns }
{
    match columns {
        Some(columns) => Ok(columns),
        None => Err(refused(TraceFault::Header)),
    }
}

/// The lines are refused by this fault.
fn refused(fault: TraceFault) -> Outcome
    ensures { result ≡ Refused (Check fault) }
{
    Outcome::Refused(Refusal::Check(fault))
}
