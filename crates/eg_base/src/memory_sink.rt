// An output in memory, of which puts of chosen numbers fail.
ghost use Rattle.std.specs.Prelude.{◌≡◌, ◌≤◌, [], ◌∷◌, ◌++◌, Some, IsTrue, false, IsErr, OnOk, OnErr, IsErrOf};
ghost use Rattle.eg_base.specs.declared.sink.PutRefusal.TheVariants.{Failed, Memory};
ghost use Rattle.eg_base.specs.Counts.{next_count};
ghost use Rattle.eg_base.specs.Fakes.{SinkState, put_fails, after_put, after_failed_put};

use crate::fault_plan::FaultPlan;
use crate::{NoMemory, PutRefusal, Sink};
use std::alloc::{AllocError, Global};
use std::marker::Model;

/// An output in memory whose puts of chosen numbers fail, to try what happens then. What was written is told,
/// and the output isn't sure.
///
/// Contracts see a `SinkState`: the bytes written, the numbers of the puts that are to fail, and the counts
/// of puts and faults.
#[derive(Drop)]
pub struct MemorySink {
    bytes: Vec<u8>,
    plan: FaultPlan,
}

impl Model for MemorySink {
    ghost use Rattle.eg_base.specs.Fakes.{SinkState};

    ghost Value = { SinkState };

    ghost view = { λ s. record {
      bytes = s.bytes.items;
      failing = s.plan.failing;
      puts = s.plan.calls;
      faults = s.plan.faults;
    } };
}

impl MemorySink {
    /// An output with no bytes, of which no put is to fail.
    pub fn new(alloc: Global) -> MemorySink
        ensures state { result ≡ record { bytes = []; failing = []; puts = 0; faults = 0 } }
        ensures shown { ⟦<MemorySink as Sink>⟧.shows result
            ≡ record { written = Some []; faults = 0; sure = false } }
    {
        MemorySink {
            bytes: Vec::new(alloc),
            plan: FaultPlan::new(alloc),
        }
    }

    /// Lets the put of this number fail, the first being 0. NoMemory changes nothing.
    pub fn fail_at(&mut self, number: u32) -> Result<(), NoMemory>
        ensures ok { OnOk result (self.new ≡ record self.old { failing = self.old.failing ++ number ∷ [] }) }
        ensures err { OnErr result (self.new ≡ self.old) }
    {
        self.plan.fail_at(number)
    }

    /// The bytes written so far.
    pub fn bytes(&self) -> &[u8]
        ensures { result.now ≡ self.now.bytes }
    {
        &self.bytes
    }
}

impl Sink for MemorySink {
    ghost shows = { λ s. record { written = Some s.bytes; faults = s.faults; sure = false } };

    fn put(&mut self, bytes: &[u8]) -> Result<(), PutRefusal>
        // Every put is counted. At a listed number half is appended and a fault is counted.
        ensures taken { OnOk result (self.new ≡ after_put self.old bytes.now) }
        ensures half { IsErrOf result Failed → self.new ≡ after_failed_put self.old bytes.now }
        ensures nothing { IsErrOf result Memory
            → self.new ≡ record self.old { puts = next_count self.old.puts } }
        ensures failed { IsErrOf result Failed → IsTrue (put_fails self.old) }
        ensures listed { IsTrue (put_fails self.old) → IsErr result }
        ensures count { self.old.faults ≤ self.new.faults }
    {
        if self.plan.next_fails() {
            self.bytes.extend_from_slice(&bytes[..bytes.len() / 2])?;
            self.plan.count_fault();
            return Err(PutRefusal::Failed);
        }
        self.bytes.extend_from_slice(bytes)?;
        Ok(())
    }
}
