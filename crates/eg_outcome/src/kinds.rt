// What tells which files are regular.
ghost use Rattle.std.specs.Prelude.{◌≡◌, ℕ, List, Bool, Option, None, IfSome};

use std::fs::metadata;
use std::rt::Files;

/// Tells which files are regular. The system does so, and no contract can tell its answers.
pub trait Kinds {
    /// Whether a file of a name is a regular one, where that is told.
    ghost regular: { Self → Option (List ℕ → Bool) };

    /// Whether the file of this name is a regular one, after links.
    fn is_regular(&self, name: &str) -> bool
        ensures { IfSome (regular self.now) (λ is_regular. result ≡ is_regular name.now) };
}

impl<R: Files> Kinds for R {
    ghost regular = { λ _. None };

    /// A pipe isn't opened for that: to open it would wait for whoever writes to it.
    fn is_regular(&self, name: &str) -> bool {
        match metadata(self, name) {
            Ok(metadata) => metadata.is_file(),
            Err(_) => false,
        }
    }
}
