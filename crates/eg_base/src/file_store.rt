// Files that are opened by their names as a store.
ghost use Rattle.std.specs.Prelude.{◌≡◌, ◌++◌, ◌≤◌, List, ℕ, length, take, false, OnOk, OnErr, IsErrOf, IfSome};
ghost use Rattle.eg_base.specs.declared.store.ReadRefusal.TheVariants.{Failed, Memory};
ghost use Rattle.eg_base.specs.Counts.{next_count};
ghost use Rattle.eg_base.specs.Outside.{Reads, BeginsWith};

use crate::{Opens, ReadRefusal, Store};
use std::io::Read;
use std::marker::Model;

/// How many bytes are asked of a file at once.
const PIECE: usize = 8192;

/// For how many bytes room is taken at once where a file is longer than a piece: room that grows step by step
/// is moved, with what was read so far, and room that nothing is put in costs next to nothing.
const ROOM: usize = 262_144;

/// A store of files that are opened by their names, such as the files of the system. Its files are told where
/// its opener tells them, and it isn't sure.
///
/// A file that can't be opened is a fault, and so is each read that fails, an interrupted one too. Contracts
/// see an `OpenerState`: the opener, and the count of faults.
#[derive(Drop)]
pub struct FileStore<O: Opens + Drop> {
    opener: O,
    faults: u64,
    /// Where each read puts its bytes. It stands here, since a new one for each file would cost more than a
    /// short file does.
    piece: [u8; PIECE],
}

impl<O: Opens + Drop> Model for FileStore<O> {
    ghost use Rattle.eg_base.specs.Openers.{OpenerState};

    ghost Value = { OpenerState O };

    ghost view = { λ s. record { opener = s.opener; faults = s.faults } };
}

impl<O: Opens + Drop> FileStore<O> {
    /// A store of the files that this opens. What the runtime hands out to open files is such an opener.
    pub fn new(opener: O) -> FileStore<O>
        ensures state { result ≡ record { opener = opener; faults = 0 } }
        ensures shown { ⟦<FileStore<O> as Store>⟧.shows result
            ≡ record { files = O.files opener; faults = 0; sure = false } }
    {
        FileStore {
            opener,
            faults: 0,
            piece: [0; PIECE],
        }
    }

    /// Appends the first `most` bytes of the file of that name, or all where they are fewer.
    #[tactic(auto, using(crate::proofs::OpenerLemmas::opened))]
    fn append(&mut self, name: &str, most: usize, into: &mut Vec<u8>) -> Result<(), ReadRefusal>
        ensures ok { OnOk result
            (Reads (O.files self.old.opener) name.now most into.old.items into.new.items) }
        ensures kept { OnErr result (BeginsWith into.old.items into.new.items) }
        ensures same { self.new ≡ self.old }
    {
        match self.opener.open(name) {
            Some(mut file) => append_from(&mut file, &mut self.piece, most, into),
            None => Err(ReadRefusal::Failed),
        }
    }
}

impl<O: Opens + Drop> Store for FileStore<O> {
    ghost shows = { λ s. record { files = O.files s.opener; faults = s.faults; sure = false } };

    fn read(&mut self, name: &str, most: usize, into: &mut Vec<u8>) -> Result<(), ReadRefusal>
        // Each Failed is a fault, and nothing else is.
        ensures fault { IsErrOf result Failed
            → self.new ≡ record self.old { faults = next_count self.old.faults } }
        ensures no_fault { OnOk result (self.new ≡ self.old) }
        ensures memory { IsErrOf result Memory → self.new ≡ self.old }
        ensures opener { self.new.opener ≡ self.old.opener }

        // The trait's clauses: an impl that adds clauses of its own must repeat those from which the trait's
        // follow.
        ensures count { self.old.faults ≤ self.new.faults }
        ensures ok { OnOk result
            (Reads (O.files self.old.opener) name.now most into.old.items into.new.items) }
        ensures kept { OnErr result (BeginsWith into.old.items into.new.items) }
    {
        let outcome = self.append(name, most, into);
        if let Err(ReadRefusal::Failed) = outcome {
            self.faults = self.faults.saturating_add(1);
        }
        outcome
    }
}

/// Appends the first `most` bytes that a reader has left, or all where they are fewer. Each read goes through
/// `piece`.
fn append_from<F: Read>(
    file: &mut F,
    piece: &mut [u8; PIECE],
    most: usize,
    into: &mut Vec<u8>,
) -> Result<(), ReadRefusal>
    ensures ok { OnOk result ((bytes : List ℕ) × (into.new.items ≡ into.old.items ++ bytes)
        × (length bytes ≤ most)) }

    // Where the reader tells what it has left, these are the first bytes of it.
    ensures first { OnOk result (IfSome (F.remaining file.old)
        (λ left. into.new.items ≡ into.old.items ++ take most left)) }
    ensures kept { OnErr result (BeginsWith into.old.items into.new.items) }
{
    let mut taken = 0;
    while taken < most {
        let room = piece.len().min(most - taken);
        match file.read(&mut piece[..room]) {
            Ok(0) => return Ok(()),
            Ok(count) => {
                if taken == PIECE {
                    into.reserve(ROOM.min(most - taken))?;
                }
                into.extend_from_slice(&piece[..count])?;
                taken += count;
            }
            Err(_) => return Err(ReadRefusal::Failed),
        }
    }
    Ok(())
}
