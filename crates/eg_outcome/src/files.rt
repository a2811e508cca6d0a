// One file of a command: the bytes that it has.
ghost use Rattle.std.specs.Prelude.{◌≡◌};
ghost use Rattle.eg_outcome.specs.Changes.{change_of};
ghost use Rattle.eg_outcome.specs.Files.{is_too_long};
ghost use Rattle.eg_outcome.specs.Reads.{KeepsFiles, ReadsFile, Says, refused, whole};
ghost use Rattle.eg_outcome.specs.declared.outcome.Outcome.TheVariants.{Refused};

use crate::{Outcome, Refusal, Role};
use eg_base::{Items, ReadRefusal, Store};
use std::alloc::Global;

/// The most bytes that a file may have (docs/FORMATS.md, "Files"). A read asks for one more.
const MOST_BYTES: usize = 4_194_304;

/// The bytes of the file of that name, which is read for this role, or how the call ends without them: the
/// file can't be read, it has more bytes than a file may have, or memory runs out (docs/FORMATS.md, "Files").
pub fn file_bytes<S: Store>(
    alloc: Global,
    role: Role,
    name: &str,
    store: &mut S,
) -> Result<Items<u8>, Outcome>
    ensures reads { ReadsFile role (whole role) name.now (change_of S.shows store.old store.new) result }
    ensures keeps { KeepsFiles (change_of S.shows store.old store.new) result }
{
    let mut bytes = Vec::new(alloc);
    match store.read(name, MOST_BYTES + 1, &mut bytes) {
        Ok(()) => within(role, bytes),
        Err(ReadRefusal::Failed) => Err(Outcome::ReadFault { file: role }),
        Err(ReadRefusal::Memory) => Err(Outcome::Memory),
    }
}

/// These bytes of a file, unless they are more than it may have. No memory is taken.
fn within(role: Role, bytes: Vec<u8>) -> Result<Items<u8>, Outcome>
    ensures exact { result ≡ refused Refused (whole role bytes.items) }
    ensures says { Says (whole role) bytes.items result }
{
    if is_too_long(&bytes) {
        return Err(Outcome::Refused(Refusal::Size { file: role }));
    }
    Ok(Items::new(bytes))
}

/// Whether a file has more bytes than it may have.
fn is_too_long(bytes: &[u8]) -> bool
    ensures { result ≡ is_too_long bytes.now }
{
    bytes.len() > MOST_BYTES
}
