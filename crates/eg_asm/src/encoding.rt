// Instructions as their lines have them.
ghost use Rattle.std.specs.Prelude.{◌≡◌, ◌+◌, ◌*◌, ◌^◌, ◌<◌, ◌≤◌, option_map, option_and_then, IfSome};
ghost use Rattle.std.specs.Char.{is_ascii_lowercase};
ghost use Rattle.std.specs.List.{list_all};
ghost use Rattle.eg_asm.specs.Numerals.{is_name};
ghost use Rattle.eg_asm.specs.Inner.Encodings.{capped, capped_target, with_operand, target_shown, encoding_shown};
ghost use Rattle.eg_asm.specs.Reading.{at_most, negative, numeral_in, register_in, integer_in, target_in, value_of};

use crate::Operand;
use crate::numeral::numeral;

/// Where a jump goes: to a label, or by a distance in words, which is cut at 65,536 words either way.
#[derive(Clone, Copy)]
pub(crate) enum Target<'a> {
    Label(&'a [u8]),
    Distance(i32),
}

/// The target of an instruction, and how far it may be.
#[derive(Clone, Copy)]
pub(crate) struct Jump<'a> {
    pub(crate) reach: u16,
    pub(crate) target: Target<'a>,
}

/// An instruction as its line has it: its word without the target, and the target, if it has one.
#[derive(Clone, Copy)]
pub(crate) struct Encoding<'a> {
    pub(crate) word: u32,
    pub(crate) jump: Option<Jump<'a>>,
}

impl<'a> Encoding<'a> {
    /// This encoding with one operand more, which the text writes.
    #[tactic(auto, unfolding(crate::specs::Inner::Encodings::with_operand, crate::specs::Reading::value_of))]
    pub(crate) fn with(self, operand: Operand, text: &'a [u8]) -> Option<Encoding<'a>>
        requires { self.word < 2 ^ 24 }
        ensures shown { option_map encoding_shown result
            ≡ option_map (with_operand (encoding_shown self.entry) operand) (value_of operand text.now) }
        ensures few { IfSome result (λ more. more.word < self.entry.word + 2 ^ 20) }
    {
        match operand {
            Operand::Register { weight } => Some(Encoding {
                word: self.word + u32::from(register_in(text)?) * u32::from(weight),
                jump: self.jump,
            }),
            Operand::Number { most } => Some(Encoding {
                word: self.word + number_within(text, most)?,
                jump: self.jump,
            }),
            Operand::Target { reach } => Some(Encoding {
                word: self.word,
                jump: Some(Jump {
                    reach,
                    target: target_in(text)?,
                }),
            }),
        }
    }
}

/// The number of the register that a text names.
#[tactic(auto, unfolding(crate::specs::Reading::register_in))]
fn register_in(text: &[u8]) -> Option<u8>
    ensures shown { result ≡ register_in text.now }
    ensures few { IfSome result (λ n. n < 8) }
{
    match text {
        [b'r', digit @ b'0'..=b'7'] => Some(*digit - b'0'),
        _ => None,
    }
}

/// The target that a text writes.
#[tactic(auto, unfolding(crate::specs::Reading::target_in, crate::specs::Inner::Encodings::capped_target))]
fn target_in(text: &[u8]) -> Option<Target<'_>>
    ensures { option_map target_shown result ≡ option_map capped_target (target_in text.now) }
{
    if is_name(text) {
        return Some(Target::Label(text));
    }
    Some(Target::Distance(integer_in(text)?))
}

/// The number that a numeral with or without a sign writes, cut at 65,536 either way.
#[tactic(auto, unfolding(crate::specs::Reading::integer_in, crate::specs::Inner::Encodings::capped))]
fn integer_in(text: &[u8]) -> Option<i32>
    ensures { result ≡ option_map capped (integer_in text.now) }
{
    match text {
        [b'-', digits @ ..] => negative(numeral(digits)?),
        _ => Some(numeral(text)? as i32),
    }
}

/// The number less than 0 of this magnitude.
fn negative(magnitude: u32) -> Option<i32>
    requires { magnitude ≤ 65536 }
    ensures { result ≡ negative magnitude }
{
    if magnitude == 0 {
        return None;
    }
    Some(-(magnitude as i32))
}

/// The number that a numeral writes, where it is at most `most`.
fn number_within(text: &[u8], most: u16) -> Option<u32>
    ensures shown { result ≡ option_and_then (at_most most) (numeral_in text.now) }
    ensures few { IfSome result (λ n. n ≤ most) }
{
    let number = numeral(text)?;
    if number <= u32::from(most) {
        Some(number)
    } else {
        None
    }
}

/// Whether a text is the name of a label (docs/FORMATS.md, "Sources").
#[tactic(auto, unfolding(crate::specs::Numerals::is_name))]
pub(crate) fn is_name(text: &[u8]) -> bool
    ensures { result ≡ is_name text.now }
{
    1 <= text.len() && text.len() <= 16 && are_letters(text)
}

/// Whether all bytes of a text are letters a to z.
fn are_letters(text: &[u8]) -> bool
    ensures { result ≡ list_all is_ascii_lowercase text.now }
{
    text.iter().all(|byte| byte.is_ascii_lowercase())
}
