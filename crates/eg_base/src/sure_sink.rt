// An output in memory that is sure.
ghost use Rattle.std.specs.Prelude.{◌≡◌, ◌≤◌, ◌↔◌, ◌+◌, [], ◌++◌, length, Some, true, IsOk, IfOk, OnOk, OnErr, IsOkUnless};
ghost use Rattle.eg_base.specs.declared.sink.PutRefusal.TheVariants.{Failed};
ghost use Rattle.eg_base.specs.Counts.{next_count};
ghost use Rattle.eg_base.specs.Fakes.{SureSinkState};

use crate::{NoMemory, PutRefusal, Sink};
use std::alloc::Global;
use std::marker::Model;

/// An output in memory with room for a stated number of bytes. The room is taken when the output is made.
/// What was written is told, and the output is sure.
///
/// Contracts see a `SureSinkState`: the bytes written, the room and the count of faults.
#[derive(Drop)]
pub struct SureSink {
    bytes: Vec<u8>,
    room: usize,
    faults: u64,
}

impl Model for SureSink {
    ghost use Rattle.std.specs.Prelude.{◌≤◌, vec_len, vec_capacity};
    ghost use Rattle.eg_base.specs.Fakes.{SureSinkState};

    ghost Value = { SureSinkState };

    ghost view = { λ s. record { bytes = s.bytes.items; room = s.room; faults = s.faults } };

    ghost invariant = { λ s. (vec_len s.bytes ≤ s.room) × (s.room ≤ vec_capacity s.bytes) };
}

impl SureSink {
    /// An output with no bytes, and with room for `room` bytes. NoMemory may come for any room.
    pub fn new(alloc: Global, room: usize) -> Result<SureSink, NoMemory>
        ensures state { IfOk result (λ sink. sink ≡ record { bytes = []; room = room; faults = 0 }) }
        ensures shown { IfOk result (λ sink. ⟦<SureSink as Sink>⟧.shows sink
            ≡ record { written = Some []; faults = 0; sure = true }) }
    {
        Ok(SureSink {
            bytes: Vec::with_capacity(alloc, room)?,
            room,
            faults: 0,
        })
    }

    /// The bytes written so far.
    pub fn bytes(&self) -> &[u8]
        ensures { result.now ≡ self.now.bytes }
    {
        &self.bytes
    }
}

impl Sink for SureSink {
    ghost shows = { λ s. record { written = Some s.bytes; faults = s.faults; sure = true } };

    fn put(&mut self, bytes: &[u8]) -> Result<(), PutRefusal>
        // What fits is appended. What doesn't counts a fault, and appends nothing.
        ensures fits { IsOk result ↔ (length self.old.bytes + length bytes.now ≤ self.old.room) }
        ensures taken { OnOk result (self.new ≡ record self.old { bytes = self.old.bytes ++ bytes.now }) }
        ensures failed { IsOkUnless result Failed }
        ensures nothing { OnErr result (self.new ≡ record self.old { faults = next_count self.old.faults }) }
        ensures count { self.old.faults ≤ self.new.faults }
    {
        if bytes.len() > self.room - self.bytes.len() {
            self.faults = self.faults.saturating_add(1);
            return Err(PutRefusal::Failed);
        }
        self.bytes.extend_from_slice(bytes)?;
        Ok(())
    }
}
