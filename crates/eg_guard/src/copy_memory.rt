// A guarded memory that can be copied.
ghost use Rattle.std.specs.Prelude.{◌≡◌, IfOk};

use crate::Guarded;
use eg_base::NoMemory;
use std::alloc::Global;

/// A guarded memory that can be copied (docs/CONCEPT.md, "Guarded memory"): copies of a run's memory are kept
/// at some ticks, and other runs go on from there.
pub trait CopyMemory: Guarded + Sized {
    /// A memory that shows the same: its words are equal, and it is sure exactly if this one is. NoMemory may
    /// come at any time.
    fn copy(&self, alloc: Global) -> Result<Self, NoMemory>
        ensures { IfOk result (λ copy. Self.shows copy ≡ Self.shows self.now) };
}
