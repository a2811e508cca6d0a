// Images: the words of level 1.
ghost use Rattle.std.specs.Prelude.{◌≡◌, ◌≢◌, ◌↔◌, ◌≤◌, ℕ, List, length, IfOk, Ok, Err};
ghost use Rattle.eg_input.specs.Images.{IsImageRead, image_words, word_of};
ghost use Rattle.eg_input.specs.Images.{IsImageOf, HasBadLineAt, HasTooManyLines};
ghost use Rattle.eg_input.specs.declared.fault.ImageFault.TheVariants as fault;
ghost use Rattle.eg_input.specs.declared.image.TheConstants.{MOST_WORDS};

use crate::ImageFault;
use hex::FromHex;
use std::alloc::Global;

/// How many words an image may have (docs/FORMATS.md, "Images").
pub const MOST_WORDS: usize = 1024;

/// The words of an image (docs/FORMATS.md, "Images"): a file of 0 to 1,024 lines, each of four hexadecimal
/// digits. It is refused by Line, with the number of the first other line among these, or by Long where
/// anything stands after 1,024 good lines.
pub fn read_image(alloc: Global, bytes: &[u8]) -> Result<Vec<u16>, ImageFault>
    ensures words { IsImageRead (image_words bytes.now) result }
    ensures limits { IfOk result (λ words. length words.items ≤ MOST_WORDS) }
{
    let mut words = Vec::new(alloc);
    for line in bytes.split_inclusive(|byte| *byte == b'\n') {
        if words.len() == MOST_WORDS {
            return Err(ImageFault::Long);
        }
        let Some(word) = word_of(line) else {
            return Err(ImageFault::Line {
                line: words.len() as u32 + 1,
            });
        };
        words.push(word).map_err(|_| ImageFault::Memory)?;
    }
    Ok(words)
}

/// The word that a line writes, or None where it isn't four hexadecimal digits and a line feed.
#[tactic(auto, unfolding(crate::specs::Images::word_of, crate::specs::Images::word_of_digits))]
fn word_of(line: &[u8]) -> Option<u16>
    ensures { result ≡ word_of line.now }
{
    let digits = line.strip_suffix(b"\n")?;
    let bytes = <[u8; 2]>::from_hex(digits).ok()?;
    Some(u16::from_be_bytes(bytes))
}

/// Does nothing when it runs. Its clauses are laws of what `image_words` says of an image (docs/FORMATS.md,
/// "Images"): it gives the words exactly if the file is the lines that write them, and each fault exactly
/// if the file has it. An image has at most 1,024 words.
pub fn images_are_their_lines()
    ensures words { (file : List ℕ) (words : List ℕ) → (image_words file ≡ Ok words) ↔ IsImageOf file words }
    ensures line { (file : List ℕ) (number : ℕ) →
        (image_words file ≡ Err (fault.Line number)) ↔ HasBadLineAt file number }
    ensures long { (file : List ℕ) → (image_words file ≡ Err fault.Long) ↔ HasTooManyLines file }
    ensures memory { (file : List ℕ) → image_words file ≢ Err fault.Memory }
    ensures most { MOST_WORDS ≡ 1024 }
{}
