// A store in memory, of which reads of chosen numbers fail.
ghost use Rattle.std.specs.Prelude.{◌≡◌, ◌≤◌, ◌↔◌, [], ◌∷◌, ◌++◌, Some, false, IsTrue, OnOk, OnErr, IsErrOf};
ghost use Rattle.std.specs.FinMap.{empty, insert};
ghost use Rattle.eg_base.specs.declared.store.ReadRefusal.TheVariants.{Failed};
ghost use Rattle.eg_base.specs.Fakes.{StoreState, read_fails, after_read};
ghost use Rattle.eg_base.specs.Outside.{Reads};

use crate::fault_plan::FaultPlan;
use crate::named_files::NamedFiles;
use crate::{NoMemory, ReadRefusal, Store};
use std::alloc::Global;
use std::marker::Model;

/// A store in memory whose reads of chosen numbers fail, to try what happens then. Its files are told, and it
/// isn't sure.
///
/// Contracts see a `StoreState`: the files, the numbers of the reads that are to fail, and the counts of
/// reads and faults.
#[derive(Drop)]
pub struct MemoryStore {
    files: NamedFiles,
    plan: FaultPlan,
}

impl Model for MemoryStore {
    ghost use Rattle.eg_base.specs.Fakes.{StoreState};
    ghost use Rattle.eg_base.specs.Codes.{store_code};

    ghost Value = { StoreState };

    ghost coded = { store_code };

    ghost view = { λ s. record {
      files = s.files;
      failing = s.plan.failing;
      reads = s.plan.calls;
      faults = s.plan.faults;
    } };
}

impl MemoryStore {
    /// A store with no files, of which no read is to fail.
    pub fn new(alloc: Global) -> MemoryStore
        ensures state { result ≡ record { files = empty; failing = []; reads = 0; faults = 0 } }
        ensures shown { ⟦<MemoryStore as Store>⟧.shows result
            ≡ record { files = Some empty; faults = 0; sure = false } }
    {
        MemoryStore {
            files: NamedFiles::new(alloc),
            plan: FaultPlan::new(alloc),
        }
    }

    /// Sets the file of that name, in place of the one that had it before. NoMemory changes nothing.
    pub fn add(&mut self, name: &str, bytes: &[u8]) -> Result<(), NoMemory>
        ensures ok { OnOk result
            (self.new ≡ record self.old { files = insert self.old.files name.now bytes.now }) }
        ensures err { OnErr result (self.new ≡ self.old) }
    {
        self.files.set(name, bytes)
    }

    /// Lets the read of this number fail, the first being 0. NoMemory changes nothing.
    pub fn fail_at(&mut self, number: u32) -> Result<(), NoMemory>
        ensures ok { OnOk result (self.new ≡ record self.old { failing = self.old.failing ++ number ∷ [] }) }
        ensures err { OnErr result (self.new ≡ self.old) }
    {
        self.plan.fail_at(number)
    }
}

impl Store for MemoryStore {
    ghost shows = { λ s. record { files = Some s.files; faults = s.faults; sure = false } };

    fn read(&mut self, name: &str, most: usize, into: &mut Vec<u8>) -> Result<(), ReadRefusal>
        // Each read is counted. A fault is counted exactly if the read's number is listed, or there is
        // no such file.
        ensures failed { IsErrOf result Failed ↔ IsTrue (read_fails self.old name.now) }
        ensures state { self.new ≡ after_read self.old name.now }
        ensures count { self.old.faults ≤ self.new.faults }

        // What the buffer holds afterwards.
        ensures ok { OnOk result (Reads (Some self.old.files) name.now most into.old.items into.new.items) }
        ensures unchanged { OnErr result (into.new.items ≡ into.old.items) }
    {
        if self.plan.next_fails() {
            self.plan.count_fault();
            return Err(ReadRefusal::Failed);
        }
        let outcome = self.files.read(name, most, into);
        if let Err(ReadRefusal::Failed) = outcome {
            self.plan.count_fault();
        }
        outcome
    }
}
