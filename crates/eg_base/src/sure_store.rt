// A store in memory that is sure.
ghost use Rattle.std.specs.Prelude.{◌≡◌, ◌≤◌, ◌↔◌, Some, true, IsNone, OnOk, OnErr, IsErrOf};
ghost use Rattle.std.specs.FinMap.{empty, insert, get};
ghost use Rattle.eg_base.specs.declared.store.ReadRefusal.TheVariants.{Failed};
ghost use Rattle.eg_base.specs.Fakes.{SureStoreState, after_sure_read};
ghost use Rattle.eg_base.specs.Outside.{Reads};

use crate::named_files::NamedFiles;
use crate::{NoMemory, ReadRefusal, Store};
use std::alloc::Global;
use std::marker::Model;

/// A store in memory whose reads fail only where there is no such file. Its files are told, and it is sure.
///
/// Contracts see a `SureStoreState`: the files and the count of faults.
#[derive(Drop)]
pub struct SureStore {
    files: NamedFiles,
    faults: u64,
}

impl Model for SureStore {
    ghost use Rattle.eg_base.specs.Fakes.{SureStoreState};
    ghost use Rattle.eg_base.specs.Codes.{sure_store_code};

    ghost Value = { SureStoreState };

    ghost coded = { sure_store_code };

    ghost view = { λ s. record { files = s.files; faults = s.faults } };
}

impl SureStore {
    /// A store with no files.
    pub fn new(alloc: Global) -> SureStore
        ensures state { result ≡ record { files = empty; faults = 0 } }
        ensures shown { ⟦<SureStore as Store>⟧.shows result
            ≡ record { files = Some empty; faults = 0; sure = true } }
    {
        SureStore {
            files: NamedFiles::new(alloc),
            faults: 0,
        }
    }

    /// Sets the file of that name, in place of the one that had it before. NoMemory changes nothing.
    pub fn add(&mut self, name: &str, bytes: &[u8]) -> Result<(), NoMemory>
        ensures ok { OnOk result
            (self.new ≡ record self.old { files = insert self.old.files name.now bytes.now }) }
        ensures err { OnErr result (self.new ≡ self.old) }
    {
        self.files.set(name, bytes)
    }
}

impl Store for SureStore {
    ghost shows = { λ s. record { files = Some s.files; faults = s.faults; sure = true } };

    fn read(&mut self, name: &str, most: usize, into: &mut Vec<u8>) -> Result<(), ReadRefusal>
        // One fault is counted exactly if there is no such file, and nothing else changes.
        ensures failed { IsErrOf result Failed ↔ IsNone (get self.old.files name.now) }
        ensures state { self.new ≡ after_sure_read self.old name.now }
        ensures count { self.old.faults ≤ self.new.faults }

        // What the buffer holds afterwards.
        ensures ok { OnOk result (Reads (Some self.old.files) name.now most into.old.items into.new.items) }
        ensures unchanged { OnErr result (into.new.items ≡ into.old.items) }
    {
        let outcome = self.files.read(name, most, into);
        if let Err(ReadRefusal::Failed) = outcome {
            self.faults = self.faults.saturating_add(1);
        }
        outcome
    }
}
