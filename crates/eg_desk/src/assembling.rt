// `asm FILE`: the image of a source.
ghost use Rattle.std.specs.Prelude.{◌≡◌, ◌↔◌, ◌≤◌, length, Err, IfErr, IsTrue};
ghost use Rattle.eg_base.specs.Outside.{IsMissing};
ghost use Rattle.eg_asm.specs.Listings.{image_text};
ghost use Rattle.eg_outcome.specs.Changes.{change_of};
ghost use Rattle.eg_outcome.specs.Outcomes.{LineEnds, TellsNoMemory};
ghost use Rattle.eg_outcome.specs.Reads.{KeepsFiles};
ghost use Rattle.eg_outcome.specs.declared.outcome.Outcome.TheVariants.{ReadFault};
ghost use Rattle.eg_outcome.specs.declared.outcome.Role.TheVariants as role;
ghost use Rattle.eg_desk.specs.Ends.{SourceComes, SourceFileComes, source_end};

use eg_asm::{AsmFault, assemble, image_text};
use eg_base::{Items, Sink, Store};
use eg_outcome::{Outcome, Refusal, Role, file_bytes, put_text};
use std::alloc::Global;

/// The words of the source of that name, or how the call ends without them (docs/FORMATS.md, "Commands").
pub fn source_words<S: Store>(
    alloc: Global,
    file: &str,
    store: &mut S,
) -> Result<Items<u16>, Outcome>
    ensures comes { SourceFileComes file.now (change_of S.shows store.old store.new) result }
    ensures missing { IsTrue (S.shows store.old).sure →
        ((result ≡ Err (ReadFault role.Source)) ↔ IsMissing (S.shows store.old).files file.now) }
    ensures no_memory { IfErr result TellsNoMemory }
    ensures keeps { KeepsFiles (change_of S.shows store.old store.new) result }
{
    match file_bytes(alloc, Role::Source, file, store) {
        Ok(bytes) => words_in(alloc, bytes.as_slice()),
        Err(end) => Err(end),
    }
}

/// The words that these bytes of a source say, or how the call ends without them.
fn words_in(alloc: Global, bytes: &[u8]) -> Result<Items<u16>, Outcome>
    requires { length bytes.now ≤ 4194304 }
    ensures comes { SourceComes bytes.now result }
    ensures no_memory { IfErr result TellsNoMemory }
{
    match assemble(alloc, bytes) {
        Ok(words) => Ok(Items::new(words)),
        Err(fault) => Err(end_of(fault)),
    }
}

/// How a call ends with this fault of a source.
fn end_of(fault: AsmFault) -> Outcome
    ensures { result ≡ source_end fault }
{
    match fault {
        AsmFault::Memory => Outcome::Memory,
        fault => Outcome::Refused(Refusal::Source(fault)),
    }
}

/// Puts the image of these words, a line for each.
pub fn put_image<K: Sink>(alloc: Global, words: &[u16], out: &mut K) -> Outcome
    ensures { LineEnds (image_text words.now) (change_of K.shows out.old out.new) result }
{
    let Ok(text) = image_text(alloc, words) else {
        return Outcome::Memory;
    };
    put_text(&text, out)
}
