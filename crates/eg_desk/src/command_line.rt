// The words of the command line.
ghost use Rattle.std.specs.Prelude.{◌≡◌, [], drop, IfOk, IfErr, IsErr, IsOkAnd};
ghost use Rattle.std.specs.Vec.Iter.{into_iter_items};
ghost use Rattle.std.specs.IoError.{error_kind};

use eg_base::NoMemory;
use std::alloc::{AllocError, Global};
use std::env::Args;
use std::io::{self, ErrorKind};

/// The words of the command (docs/FORMATS.md, "Commands"), by what the system answers when it is asked for
/// the arguments of the program: all but the first, which is the program's name. Where one of them isn't
/// UTF-8 there are no words: it is no form of a command, and no words are none either. NoMemory is the one
/// refusal.
pub fn command_words(alloc: Global, arguments: io::Result<Args>) -> Result<Vec<String>, NoMemory>
    ensures words { IfOk arguments (λ all.
        IfOk result (λ words. words.items ≡ drop 1 (into_iter_items all))) }
    ensures none { IfErr arguments (λ error. ¬ (error_kind error ≡ ErrorKind.OutOfMemory) →
        IsOkAnd result (λ words. words.items ≡ [])) }
    ensures memory { IfErr arguments (λ error. error_kind error ≡ ErrorKind.OutOfMemory → IsErr result) }
{
    match arguments {
        Ok(all) => Ok(behind_first(alloc, all)?),
        Err(error) if error.kind() == ErrorKind::OutOfMemory => Err(NoMemory),
        Err(_) => Ok(Vec::new(alloc)),
    }
}

/// All of these words but the first.
fn behind_first(alloc: Global, words: Args) -> Result<Vec<String>, AllocError>
    ensures { IfOk result (λ rest. rest.items ≡ drop 1 (into_iter_items words)) }
{
    words.skip(1).collect(alloc)
}
