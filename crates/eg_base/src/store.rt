// Where files are read from.
ghost use Rattle.std.specs.Prelude.{◌≡◌, ◌↔◌, ◌≤◌, IsTrue, OnOk, OnErr, IsSome, IsErrOf};
ghost use Rattle.eg_base.specs.declared.store.ReadRefusal.TheVariants.{Failed, Memory};
ghost use Rattle.eg_base.specs.Outside.{ShownStore, Rose, Reads, BeginsWith, IsMissing};

use std::alloc::AllocError;

/// Why a read was refused.
#[derive(Clone, Copy, PartialEq, Eq)]
pub enum ReadRefusal {
    /// There is no such file, or reading it failed: the store's count of faults rises, up to
    /// the last value of a u64.
    Failed,
    /// Memory ran out.
    Memory,
}

impl From<AllocError> for ReadRefusal {
    ghost from_gives = { λ _ refusal. refusal ≡ Memory };

    fn from(_: AllocError) -> ReadRefusal {
        ReadRefusal::Memory
    }
}

/// Named files that can be read.
///
/// Contracts see what a store shows (`ShownStore`): its files, where they are told, the count of its
/// faults, which never falls and rises with each Failed up to the last value of a u64, and whether it is
/// sure.
pub trait Store {
    /// Files, faults and whether it is sure.
    ghost shows: { Self → ShownStore };

    /// Appends the first `most` bytes of the file of that name to `into`, or all where it is shorter.
    fn read(&mut self, name: &str, most: usize, into: &mut Vec<u8>) -> Result<(), ReadRefusal>
        // Reading changes no file, and keeps a store sure.
        ensures files { (shows self.new).files ≡ (shows self.old).files }
        ensures stays_sure { (shows self.new).sure ≡ (shows self.old).sure }

        // What the buffer holds afterwards.
        ensures ok { OnOk result (Reads (shows self.old).files name.now most into.old.items into.new.items) }
        ensures kept { OnErr result (BeginsWith into.old.items into.new.items) }

        // Each Failed is counted, and nothing else is. Over a sure store it comes exactly if there is no
        // such file.
        ensures count { (shows self.old).faults ≤ (shows self.new).faults }
        ensures no_fault { OnOk result ((shows self.new).faults ≡ (shows self.old).faults) }
        ensures cause { IsErrOf result Failed → Rose (shows self.old).faults (shows self.new).faults }
        ensures memory { IsErrOf result Memory → (shows self.new).faults ≡ (shows self.old).faults }
        ensures told { IsTrue (shows self.old).sure → IsSome (shows self.old).files }
        ensures missing { IsTrue (shows self.old).sure →
            (IsErrOf result Failed ↔ IsMissing (shows self.old).files name.now) };
}
