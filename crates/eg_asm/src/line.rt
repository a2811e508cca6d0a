// Lines of a source.
ghost use Rattle.std.specs.Prelude.{◌≡◌, ◌≤◌, length, option_map};
ghost use Rattle.std.specs.Option.{option_copied};
ghost use Rattle.eg_asm.specs.Inner.Rows.{form_in};
ghost use Rattle.eg_asm.specs.Inner.Encodings.{encoded, encoding_shown, instruction_shown, told, line_shown};
ghost use Rattle.eg_asm.specs.Inner.Encodings as tells;
ghost use Rattle.eg_asm.specs.Reading.{values_of, texts_in, instruction_in, labelled, item_of_text, item_in};

use crate::encoding::{Encoding, is_name};
use crate::form::FormRow;
use crate::forms::form_named;
use crate::instruction::Instruction;
use crate::text::{before_last, cut};

/// What a line tells. An empty line and a comment tell nothing.
#[derive(Clone, Copy)]
pub(crate) enum Line<'a> {
    Nothing,
    Label(&'a [u8]),
    Instruction(Instruction<'a>),
}

/// What a line, including its line feed, tells, or None where it isn't of the grammar (docs/FORMATS.md,
/// "Sources").
#[tactic(auto, unfolding(crate::specs::Reading::item_in))]
pub(crate) fn read_line(line: &[u8]) -> Option<Line<'_>>
    ensures { option_map line_shown result ≡ option_map told (item_in line.now) }
{
    read_text(before_last(line, b'\n')?)
}

/// What the text of a line tells.
#[tactic(auto, unfolding(crate::specs::Reading::item_of_text, crate::specs::Inner::Encodings::told))]
fn read_text(text: &[u8]) -> Option<Line<'_>>
    ensures { option_map line_shown result ≡ option_map told (item_of_text text.now) }
{
    match text {
        [] | [b';', ..] => Some(Line::Nothing),
        _ => read_labelled(text, before_last(text, b':')),
    }
}

/// What a text tells that is neither empty nor a comment. `name` is what stands before a colon at the end of
/// the text, if it ends with one.
#[tactic(auto, unfolding(crate::specs::Reading::labelled, crate::specs::Inner::Encodings::told))]
fn read_labelled<'a>(text: &'a [u8], name: Option<&'a [u8]>) -> Option<Line<'a>>
    ensures { option_map line_shown result ≡ option_map told (labelled text.now (option_copied name.entry)) }
{
    match name {
        Some(name) => {
            if is_name(name) {
                Some(Line::Label(name))
            } else {
                None
            }
        }
        None => Some(Line::Instruction(read_instruction(text)?)),
    }
}

/// The instruction that a text writes.
fn read_instruction(text: &[u8]) -> Option<Instruction<'_>>
    ensures { option_map (λ i. tells.Instruction (instruction_shown i)) result
        ≡ option_map told (instruction_in text.now) }
{
    let (mnemonic, behind) = cut(text, b' ');
    let form = form_named(mnemonic)?;
    let encoding = read_operands(form, behind)?;
    Some(Instruction {
        word: encoding.word as u16,
        jump: encoding.jump,
    })
}

/// The instruction of a form whose operands stand in the text, between commas; it has no operands where there
/// is no text.
fn read_operands<'a>(form: &FormRow, text: Option<&'a [u8]>) -> Option<Encoding<'a>>
    requires { length form.now.operands.now ≤ 3 }
    ensures { option_map encoding_shown result
        ≡ option_map (encoded (form_in form.now))
        (values_of form.now.operands.now (texts_in (option_copied text.entry))) }
{
    let mut encoding = Encoding {
        word: u32::from(form.base),
        jump: None,
    };
    let mut rest = text;
    for operand in form.operands {
        let (first, behind) = cut(rest?, b',');
        encoding = encoding.with(*operand, first)?;
        rest = behind;
    }
    if rest.is_some() {
        return None;
    }
    Some(encoding)
}
