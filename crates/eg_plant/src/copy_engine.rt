// An engine that can be copied.
ghost use Rattle.std.specs.Prelude.{◌≡◌};

use crate::Engine;

/// An engine that can be copied (docs/CONCEPT.md, "Plant"): copies of a run's engine are kept at some ticks,
/// and other runs go on from there.
pub trait CopyEngine: Engine + Sized {
    /// An equal engine. It takes no memory.
    fn copy(&self) -> Self
        ensures { result ≡ self.now };
}
