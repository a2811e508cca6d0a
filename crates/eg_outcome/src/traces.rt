// The traces of a campaign that were read so far.
ghost use Rattle.std.specs.Prelude.{◌≡◌, ◌⊎◌, IfErr, IfOk, IfSome, Err};
ghost use Rattle.eg_input.specs.Records.{records_of};
ghost use Rattle.eg_input.specs.DriveTrace.{drive_rows};
ghost use Rattle.eg_input.specs.declared.fault.TraceFault.TheVariants.{Memory};
ghost use Rattle.eg_outcome.specs.Campaigns.{IsTraceOf};

use eg_base::Items;
use eg_input::{TraceFault, read_trace};
use eg_num::Drive;
use eg_plan::{Drives, SharedItems};
use std::alloc::Global;
use std::marker::Model;

/// A trace that was read: its bytes, and the drive that they say. Contracts see the bytes.
#[derive(Drop)]
struct Trace {
    bytes: Items<u8>,
    drive: SharedItems<Drive>,
}

impl Model for Trace {
    ghost use Rattle.std.specs.Prelude.{ℕ, List};
    ghost use Rattle.eg_outcome.specs.Campaigns.{IsTraceOf};

    ghost Value = { List ℕ };

    ghost view = { λ t. t.bytes };

    ghost invariant = { λ t. IsTraceOf t.bytes t.drive };
}

impl Trace {
    /// The drive that these bytes say, where they are those of this trace. Nothing is parsed for it.
    fn drive_of(&self, bytes: &[u8]) -> Option<SharedItems<Drive>>
        ensures { IfSome result (IsTraceOf bytes.now) }
    {
        if self.bytes.as_slice() != bytes {
            return None;
        }
        self.drive.share()
    }
}

/// The traces of a campaign that were read so far: the last one, and the drives of all. One with the bytes of
/// the last isn't parsed, and equal drives are kept once. No contract says so: each drive is the one that its
/// bytes say.
#[derive(Drop)]
pub(crate) struct Traces {
    last: Option<Trace>,
    drives: Drives,
}

impl Traces {
    /// None yet. Takes no memory.
    pub(crate) fn new(alloc: Global) -> Traces {
        Traces {
            last: None,
            drives: Drives::new(alloc),
        }
    }

    /// The drive that these bytes of a trace say, or the first fault that they have. They are the last trace
    /// from now on.
    pub(crate) fn drive_of(
        &mut self,
        alloc: Global,
        bytes: Items<u8>,
    ) -> Result<SharedItems<Drive>, TraceFault>
        ensures fault { IfErr result (λ fault.
            (fault ≡ Memory) ⊎ (drive_rows (records_of bytes) ≡ Err fault)) }
        ensures drive { IfOk result (IsTraceOf bytes) }
    {
        match drive_again(&self.last, bytes.as_slice()) {
            Some(drive) => Ok(drive),
            None => self.parse(alloc, bytes),
        }
    }

    /// The drive that these bytes of a trace say, which are parsed. The trace before is let go first.
    fn parse(&mut self, alloc: Global, bytes: Items<u8>) -> Result<SharedItems<Drive>, TraceFault>
        ensures fault { IfErr result (λ fault.
            (fault ≡ Memory) ⊎ (drive_rows (records_of bytes) ≡ Err fault)) }
        ensures drive { IfOk result (IsTraceOf bytes) }
    {
        self.last = None;
        let rows = read_trace(alloc, bytes.as_slice())?;
        let Ok(drive) = self.drives.keep(rows) else {
            return Err(TraceFault::Memory);
        };
        if let Some(shared) = drive.share() {
            self.last = Some(Trace {
                bytes,
                drive: shared,
            });
        }
        Ok(drive)
    }
}

/// The drive that these bytes of a trace say, where the last trace has the same.
fn drive_again(last: &Option<Trace>, bytes: &[u8]) -> Option<SharedItems<Drive>>
    ensures { IfSome result (IsTraceOf bytes.now) }
{
    match last {
        Some(trace) => trace.drive_of(bytes),
        None => None,
    }
}
