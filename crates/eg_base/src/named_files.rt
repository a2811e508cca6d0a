// The files that the two stores in memory hold.
ghost use Rattle.std.specs.Prelude.{◌≡◌, ◌↔◌, reverse, Some, IsNone, IsErrOf, OnOk, OnErr, option_map};
ghost use Rattle.std.specs.List.{find};
ghost use Rattle.std.specs.FinMap.{empty, get, insert};
ghost use Rattle.eg_base.specs.declared.store.ReadRefusal.TheVariants.{Failed};
ghost use Rattle.eg_base.specs.Inner.NamedFiles.{is_named};
ghost use Rattle.eg_base.specs.Outside.{Reads};

use crate::{NoMemory, ReadRefusal};
use std::alloc::Global;
use std::marker::Model;

/// Files by their names. Of two that were set under one name the later stands.
#[derive(Drop)]
pub(crate) struct NamedFiles {
    alloc: Global,
    files: Vec<NamedFile>,
}

#[derive(Drop)]
pub(crate) struct NamedFile {
    name: String,
    bytes: Vec<u8>,
}

impl Model for NamedFiles {
    ghost use Rattle.eg_base.specs.Outside.{Files};
    ghost use Rattle.eg_base.specs.Codes.{files_code};

    ghost Value = { Files };

    ghost coded = { files_code };

    ghost use Rattle.eg_base.specs.Inner.NamedFiles.{files_of};

    ghost view = { λ s. files_of s.files.items };
}

impl NamedFiles {
    /// No files.
    pub(crate) fn new(alloc: Global) -> NamedFiles
        ensures { result ≡ empty }
    {
        NamedFiles {
            alloc,
            files: Vec::new(alloc),
        }
    }

    /// Sets the file of that name.
    pub(crate) fn set(&mut self, name: &str, bytes: &[u8]) -> Result<(), NoMemory>
        ensures ok { OnOk result (self.new ≡ insert self.old name.now bytes.now) }
        ensures err { OnErr result (self.new ≡ self.old) }
    {
        let name = String::from_str(self.alloc, name)?;
        let bytes = bytes.to_vec(self.alloc)?;
        self.files.push(NamedFile { name, bytes })?;
        Ok(())
    }

    /// Appends the first `most` bytes of the file of that name to `into`, or all where it is shorter.
    pub(crate) fn read(
        &self,
        name: &str,
        most: usize,
        into: &mut Vec<u8>,
    ) -> Result<(), ReadRefusal>
        ensures failed { IsErrOf result Failed ↔ IsNone (get self.now name.now) }
        ensures ok { OnOk result (Reads (Some self.now) name.now most into.old.items into.new.items) }
        ensures unchanged { OnErr result (into.new.items ≡ into.old.items) }
    {
        let Some(bytes) = self.get(name) else {
            return Err(ReadRefusal::Failed);
        };
        let count = most.min(bytes.len());
        into.extend_from_slice(&bytes[..count])?;
        Ok(())
    }

    /// The bytes of the file of that name.
    fn get(&self, name: &str) -> Option<&[u8]>
        ensures { option_map (λ bytes. bytes.now) result ≡ get self.now name.now }
    {
        let file = find_last(&self.files, name)?;
        Some(&file.bytes)
    }
}

/// The file that was set last under that name.
fn find_last<'a>(files: &'a [NamedFile], name: &str) -> Option<&'a NamedFile>
    ensures { option_map (λ f. f.now) result ≡ find (is_named name.now) (reverse files.now) }
{
    files.iter().rev().find(|file| name == file.name.as_str())
}
