// Where bytes are written to.
ghost use Rattle.std.specs.Prelude.{◌≡◌, ◌≤◌, IsTrue, OnOk, OnErr, IsErrOf};
ghost use Rattle.eg_base.specs.declared.sink.PutRefusal.TheVariants.{Failed, Memory};
ghost use Rattle.eg_base.specs.Outside.{ShownSink, Rose, Appends, AppendsPrefix};

use std::alloc::AllocError;

/// Why a put was refused.
#[derive(Clone, Copy, PartialEq, Eq)]
pub enum PutRefusal {
    /// Writing failed: the output's count of faults rises, up to the last value of a u64.
    Failed,
    /// Memory ran out.
    Memory,
}

impl From<AllocError> for PutRefusal {
    ghost from_gives = { λ _ refusal. refusal ≡ Memory };

    fn from(_: AllocError) -> PutRefusal {
        PutRefusal::Memory
    }
}

/// An output that bytes are written to.
///
/// Contracts see what an output shows (`ShownSink`): what was written, where it is told, the count of its
/// faults, which never falls and rises with each Failed up to the last value of a u64, and whether it is
/// sure.
pub trait Sink {
    /// What was written, faults, and whether it is sure.
    ghost shows: { Self → ShownSink };

    /// Appends these bytes. Where it is refused, some prefix of them may have been appended.
    fn put(&mut self, bytes: &[u8]) -> Result<(), PutRefusal>
        ensures ok { OnOk result (Appends (shows self.old) (shows self.new) bytes.now) }
        ensures prefix { OnErr result (AppendsPrefix (shows self.old) (shows self.new) bytes.now) }
        ensures stays_sure { (shows self.new).sure ≡ (shows self.old).sure }

        // Each Failed is counted, and nothing else is. A sure output takes no memory.
        ensures count { (shows self.old).faults ≤ (shows self.new).faults }
        ensures no_fault { OnOk result ((shows self.new).faults ≡ (shows self.old).faults) }
        ensures cause { IsErrOf result Failed → Rose (shows self.old).faults (shows self.new).faults }
        ensures memory { IsErrOf result Memory → (shows self.new).faults ≡ (shows self.old).faults }
        ensures sure { IsTrue (shows self.old).sure → ¬ IsErrOf result Memory };
}
