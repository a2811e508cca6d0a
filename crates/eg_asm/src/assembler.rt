// From a source to an image.
ghost use Rattle.std.specs.Prelude.{◌≡◌, ◌≢◌, ◌⊎◌, ◌≤◌, ◌<◌, ℕ, List, ◌∷◌, [], length, All, codes, Some, Result, Ok, Err, IfOk, IfErr};
ghost use Rattle.eg_input.specs.Images.{lines_of};
ghost use Rattle.eg_input.specs.declared.image.TheConstants.{MOST_WORDS};
ghost use Rattle.eg_word.specs.Instructions.{instruction_of};
ghost use Rattle.eg_asm.specs.declared.fault.AsmFault.{AsmFault};
ghost use Rattle.eg_asm.specs.declared.fault.AsmFault.TheVariants as fault;
ghost use Rattle.eg_asm.specs.Grammar.{Value, Number, Item, Instruction, IsItem};
ghost use Rattle.eg_asm.specs.Words.{Labels, word_of};
ghost use Rattle.eg_asm.specs.Sources.{Assembles};
ghost use Rattle.eg_asm.specs.Listings.{source_text};
ghost use Rattle.eg_asm.specs.Meanings.{Means};
ghost use Rattle.eg_asm.specs.Inner.Kept.{HoldsItems};
ghost use Rattle.eg_asm.specs.Reading.{items_from, assembled};

use crate::AsmFault;
use crate::source::Source;
use std::alloc::Global;

/// The words of the image that a source writes (docs/FORMATS.md, "Sources"), or why it is refused.
pub fn assemble(alloc: Global, bytes: &[u8]) -> Result<Vec<u16>, AsmFault>
    requires { length bytes.now ≤ 4194304 }
    ensures words { IfOk result (λ words. Assembles bytes.now (Ok words.items)) }
    ensures faults { IfErr result (λ e. (e ≡ fault.Memory) ⊎ Assembles bytes.now (Err e)) }
{
    read_source(alloc, bytes)?.link(alloc)
}

/// What is kept of the lines of a source, or why the first line that may not come is refused.
fn read_source(alloc: Global, bytes: &[u8]) -> Result<Source<'_>, AsmFault>
    requires { length bytes.now ≤ 4194304 }
    ensures kept { IfOk result (λ source. (items : List Item)
        × (items_from 0 1 (lines_of bytes.now) ≡ Ok items) × HoldsItems source items) }
    ensures fault { IfErr result (λ e. (e ≡ fault.Memory) ⊎ (items_from 0 1 (lines_of bytes.now) ≡ Err e)) }
{
    let mut source = Source::new(alloc);
    let mut number = 0u32;
    for line in bytes.split_inclusive(|byte| *byte == b'\n') {
        number += 1;
        source.read(number, line)?;
    }
    Ok(source)
}

/// Does nothing when it runs. Its clauses are laws (docs/FORMATS.md, "Sources"): each source has one answer,
/// words or a fault, and reading its lines finds it. The source of an image has the image's words as its
/// answer.
pub fn sources_have_one_answer()
    ensures one { (source : List ℕ) (one other : Result (List ℕ) AsmFault) →
        Assembles source one → Assembles source other → one ≡ other }
    ensures reads { (source : List ℕ) → Assembles source (assembled source) }
    ensures back { (words : List ℕ) (answer : Result (List ℕ) AsmFault) →
        All (λ word. word < 65536) words → length words ≤ MOST_WORDS →
        Assembles (source_text words) answer → answer ≡ Ok words }
{}

/// Does nothing when it runs. Its clauses are laws (docs/FORMATS.md, "Sources"): the machine reads the word
/// of an instruction as what the instruction means, and the word of `word N` is N.
pub fn words_mean_their_instructions()
    ensures meant { (labels : Labels) (address word : ℕ) (mnemonic : List ℕ) (values : List Value) →
        mnemonic ≢ codes "word" → IsItem (Instruction mnemonic values) →
        word_of labels address mnemonic values ≡ Some word →
        Means labels address mnemonic values (instruction_of word) }
    ensures any { (labels : Labels) (address word : ℕ) →
        word_of labels address (codes "word") (Number word ∷ []) ≡ Some word }
{}
