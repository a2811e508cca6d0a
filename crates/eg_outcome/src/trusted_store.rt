// Which files a command may read.
ghost use Rattle.std.specs.Prelude.{◌≡◌, true, false, map, string_bytes, IfSome, IsErrOf, OnOk, OnErr};
ghost use Rattle.eg_base.specs.Outside.{Reads, BeginsWith};
ghost use Rattle.eg_base.specs.declared.store.ReadRefusal.TheVariants.{Failed};
ghost use Rattle.eg_outcome.specs.Trusted.{TrustedState, is_word, may_read};

use crate::Kinds;
use eg_base::{FileStore, Opens, ReadRefusal, Store};
use std::marker::Model;

/// The files of an opener, as a command may read them (docs/FORMATS.md, "Commands"): what its words name may
/// be anything that can be read, such as a pipe. Any other name comes from a campaign, which may come from
/// anybody, and is read only if it is a regular file, after links: a pipe that nobody writes to would never
/// end, and a device may never.
///
/// Contracts see a `TrustedState`: the opener, the words, and the count of faults. Of the system's files they
/// are told neither what they hold nor which are regular: cases and streams try that.
#[derive(Drop)]
pub struct TrustedStore<'a, O: Opens + Kinds + Copy> {
    opener: O,
    store: FileStore<O>,
    words: &'a [String],
    faults: u64,
}

impl<'a, O: Opens + Kinds + Copy> Model for TrustedStore<'a, O> {
    ghost use Rattle.std.specs.Prelude.{◌≡◌, map, string_bytes};
    ghost use Rattle.eg_outcome.specs.Trusted.{TrustedState};

    ghost Value = { TrustedState O };

    ghost view = { λ s. record {
      opener = s.opener;
      words = map string_bytes s.words.now;
      faults = s.faults;
    } };

    ghost invariant = { λ s. s.store.opener ≡ s.opener };
}

impl<'a, O: Opens + Kinds + Copy> TrustedStore<'a, O> {
    /// Those for a command of these words. No read has failed yet.
    pub fn new(opener: O, words: &'a [String]) -> TrustedStore<'a, O>
        ensures state { result ≡ record { opener = opener; words = map string_bytes words.now; faults = 0 } }
        ensures shown { ⟦<TrustedStore<'a, O> as Store>⟧.shows result
            ≡ record { files = O.files opener; faults = 0; sure = false } }
    {
        TrustedStore {
            opener,
            store: FileStore::new(opener),
            words,
            faults: 0,
        }
    }

    /// Whether a file of this name may be read: one of the words is the name, or it is a regular file.
    fn may_read(&self, name: &str) -> bool
        ensures word { is_word self.now.words name.now ≡ true → result ≡ true }
        ensures told { IfSome (O.regular self.now.opener)
            (λ is_regular. result ≡ may_read self.now.words is_regular name.now) }
    {
        is_word(self.words, name) || self.opener.is_regular(name)
    }

    /// Appends the first `most` bytes of the file of that name, or all where they are fewer. Failed comes for
    /// a file that may not be read. No clause says when it doesn't come for one that may: the system may fail
    /// to read any file.
    fn append(&mut self, name: &str, most: usize, into: &mut Vec<u8>) -> Result<(), ReadRefusal>
        ensures ok { OnOk result
            (Reads (O.files self.old.opener) name.now most into.old.items into.new.items) }
        ensures kept { OnErr result (BeginsWith into.old.items into.new.items) }
        ensures refused { IfSome (O.regular self.old.opener) (λ is_regular.
            may_read self.old.words is_regular name.now ≡ false → IsErrOf result Failed) }
        ensures same { self.new ≡ self.old }
    {
        if !self.may_read(name) {
            return Err(ReadRefusal::Failed);
        }
        self.store.read(name, most, into)
    }
}

/// Whether one of these words is the name.
fn is_word(words: &[String], name: &str) -> bool
    ensures { result ≡ is_word (map string_bytes words.now) name.now }
{
    words.iter().any(|word| word.as_str() == name)
}

impl<'a, O: Opens + Kinds + Copy> Store for TrustedStore<'a, O> {
    ghost shows = { λ s. record { files = O.files s.opener; faults = s.faults; sure = false } };

    fn read(&mut self, name: &str, most: usize, into: &mut Vec<u8>) -> Result<(), ReadRefusal> {
        let outcome = self.append(name, most, into);
        if let Err(ReadRefusal::Failed) = outcome {
            self.faults = self.faults.saturating_add(1);
        }
        outcome
    }
}
