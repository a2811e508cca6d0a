// What opens files by their names.
ghost use Rattle.std.specs.Prelude.{Option, None, IfSome};
ghost use Rattle.eg_base.specs.Outside.{Files as ToldFiles};
ghost use Rattle.eg_base.specs.Openers.{IsOpened};

use std::fs::File;
use std::io::Read;
use std::rt::Files;

/// Opens files by their names, for reading. The system does so, and no contract can tell its files.
///
/// Contracts see its files, where they are told.
pub trait Opens {
    /// A file that was opened.
    type File: Read + Drop;

    /// The files, where they are told.
    ghost files: { Self → Option ToldFiles };

    /// Opens the file of that name, to be read from its first byte on. None where that is refused.
    fn open(&self, name: &str) -> Option<Self::File>
        ensures { IfSome result (λ file. IsOpened (files self.now) name.now (Self.File.remaining file)) };
}

impl<R: Files> Opens for R {
    type File = R::File;

    ghost files = { λ _. None };

    fn open(&self, name: &str) -> Option<R::File> {
        File::open(self, name).ok()
    }
}
