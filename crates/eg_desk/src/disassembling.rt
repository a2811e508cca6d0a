// `dis FILE`: the source of an image.
ghost use Rattle.std.specs.Prelude.{◌≤◌, length, IfOk};
ghost use Rattle.eg_asm.specs.Listings.{source_text};
ghost use Rattle.eg_input.specs.declared.image.TheConstants.{MOST_WORDS};
ghost use Rattle.eg_outcome.specs.Changes.{change_of};
ghost use Rattle.eg_outcome.specs.Images.{image_file};
ghost use Rattle.eg_outcome.specs.Outcomes.{LineEnds};
ghost use Rattle.eg_outcome.specs.Reads.{KeepsFiles, ReadsFile};
ghost use Rattle.eg_desk.specs.Ends.{read_alone};

use eg_asm::disassemble;
use eg_base::{Items, Sink, Store};
use eg_outcome::{Outcome, Role, file_bytes, image_in, put_text};
use std::alloc::Global;

/// The words of the image of that name, or how the call ends without them (docs/FORMATS.md, "Commands").
pub fn image_of<S: Store>(alloc: Global, file: &str, store: &mut S) -> Result<Items<u16>, Outcome>
    ensures reads { ReadsFile read_alone (image_file 0) file.now
        (change_of S.shows store.old store.new) result }
    ensures most { IfOk result (λ image. length image ≤ MOST_WORDS) }
    ensures keeps { KeepsFiles (change_of S.shows store.old store.new) result }
{
    match file_bytes(alloc, Role::Image { run: 0 }, file, store) {
        Ok(bytes) => image_in(alloc, 0, bytes.as_slice()),
        Err(end) => Err(end),
    }
}

/// Puts the source of these words of an image, a line for each.
pub fn put_source<K: Sink>(alloc: Global, words: &[u16], out: &mut K) -> Outcome
    requires { length words.now ≤ MOST_WORDS }
    ensures { LineEnds (source_text words.now) (change_of K.shows out.old out.new) result }
{
    let Ok(text) = disassemble(alloc, words) else {
        return Outcome::Memory;
    };
    put_text(&text, out)
}
