// From an image to a source, and to the text of an image.
ghost use Rattle.std.specs.Prelude.{◌≡◌, ◌≤◌, ◌<◌, ◌*◌, ◌++◌, ◌==◌, true, length, map, OnOk, IfOk, if◌then◌else◌};
ghost use Rattle.std.specs.Int.{to_be_bytes, w16};
ghost use Rattle.std.specs.Prelude.{codes};
ghost use Rattle.hex.specs.Hex.{encode_lower};
ghost use Rattle.eg_input.specs.declared.image.TheConstants.{MOST_WORDS};
ghost use Rattle.eg_input.specs.Images.{IsImageOf};
ghost use Rattle.eg_word.specs.Instructions.{signed};
ghost use Rattle.eg_asm.specs.Numerals.{numeral, integer};
ghost use Rattle.eg_asm.specs.Sources.{IsSourceOf};
ghost use Rattle.eg_asm.specs.Grammar.{text_of_value, text_of_values, line_of};
ghost use Rattle.eg_asm.specs.Listings.{value_in, item_of, source_text, image_text};
ghost use Rattle.eg_asm.specs.Inner.Usable.{is_usable, are_usable};

use crate::Operand;
use crate::forms::form_of;
use eg_base::NoMemory;
use eg_input::MOST_WORDS;
use itoa::Buffer;
use std::alloc::Global;

/// The source that words are written as (docs/FORMATS.md, "Sources"): a line of up to 14 bytes for each word.
/// Assembled, it gives the same words. NoMemory may come for any words.
pub fn disassemble(alloc: Global, words: &[u16]) -> Result<Vec<u8>, NoMemory>
    requires { length words.now ≤ MOST_WORDS }
    ensures text { IfOk result (λ text. text.items ≡ source_text words.now) }
    ensures source { IfOk result (λ text. IsSourceOf text.items words.now) }
    ensures short { IfOk result (λ text. length text.items ≤ 14 * length words.now) }
{
    let mut text = Vec::new(alloc);
    for word in words {
        push_line(&mut text, *word)?;
    }
    Ok(text)
}

/// The image that words are written as (docs/FORMATS.md, "Images"): four hexadecimal digits a line. Where
/// they are at most 1,024, it is read as the same words. NoMemory may come for any words.
pub fn image_text(alloc: Global, words: &[u16]) -> Result<Vec<u8>, NoMemory>
    ensures text { IfOk result (λ text. text.items ≡ image_text words.now) }
    ensures image { IfOk result (λ text. length words.now ≤ MOST_WORDS → IsImageOf text.items words.now) }
{
    let mut text = Vec::new(alloc);
    for word in words {
        push_digits(&mut text, *word)?;
    }
    Ok(text)
}

/// Appends the line of a word of an image.
fn push_digits(text: &mut Vec<u8>, word: u16) -> Result<(), NoMemory>
    ensures { OnOk result
        (text.new.items ≡ text.old.items ++ (encode_lower (to_be_bytes w16 word) ++ codes "\n")) }
{
    let mut digits = [0; 4];
    hex::encode_to_slice(word.to_be_bytes().as_slice(), &mut digits).unwrap();
    text.extend_from_slice(&digits)?;
    text.push(b'\n')?;
    Ok(())
}

/// Appends the line of the instruction that a word is written as.
fn push_line(text: &mut Vec<u8>, word: u16) -> Result<(), NoMemory>
    ensures { OnOk result (text.new.items ≡ text.old.items ++ line_of (item_of word)) }
{
    let form = form_of(word);
    text.extend_from_slice(form.mnemonic)?;
    push_operands(text, form.operands, word)?;
    text.push(b'\n')?;
    Ok(())
}

/// Appends what a word has in these operands' places.
fn push_operands(text: &mut Vec<u8>, operands: &[Operand], word: u16) -> Result<(), NoMemory>
    requires { are_usable operands.now ≡ true }
    ensures { OnOk result
        (text.new.items ≡ text.old.items ++ text_of_values (map (value_in word) operands.now)) }
{
    for (i, operand) in operands.iter().enumerate() {
        text.push(separator(i))?;
        push_operand(text, *operand, word)?;
    }
    Ok(())
}

/// What stands before the operand of this index, the first being 0.
fn separator(index: usize) -> u8
    ensures { result ≡ (if index == 0 then 32 else 44) }
{
    if index == 0 { b' ' } else { b',' }
}

/// Appends what a word has in an operand's place.
fn push_operand(text: &mut Vec<u8>, operand: Operand, word: u16) -> Result<(), NoMemory>
    requires { is_usable operand ≡ true }
    ensures { OnOk result (text.new.items ≡ text.old.items ++ text_of_value (value_in word operand)) }
{
    let word = u32::from(word);
    match operand {
        Operand::Register { weight } => {
            text.push(b'r')?;
            push_number(text, word / u32::from(weight) % 8)
        }
        Operand::Number { most } => push_number(text, word % (u32::from(most) + 1)),
        Operand::Target { reach } => {
            let reach = u32::from(reach);
            push_signed(text, reach, word % (2 * reach))
        }
    }
}

/// Appends a number below `2 * reach` read as two's complement.
fn push_signed(text: &mut Vec<u8>, reach: u32, number: u32) -> Result<(), NoMemory>
    requires below { number < 2 * reach }
    requires few { reach < 65536 }
    ensures { OnOk result (text.new.items ≡ text.old.items ++ integer (signed reach number)) }
{
    if number < reach {
        return push_number(text, number);
    }
    text.push(b'-')?;
    push_number(text, 2 * reach - number)
}

/// Appends a number.
fn push_number(text: &mut Vec<u8>, number: u32) -> Result<(), NoMemory>
    ensures { OnOk result (text.new.items ≡ text.old.items ++ numeral number) }
{
    let mut buffer = Buffer::new();
    text.extend_from_slice(buffer.format(number).as_bytes())?;
    Ok(())
}
