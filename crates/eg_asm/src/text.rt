// Parts of a text.
ghost use Rattle.std.specs.Prelude.{◌≡◌, position};
ghost use Rattle.std.specs.Option.{option_copied};
ghost use Rattle.std.specs.List.{before_first};
ghost use Rattle.eg_asm.specs.Reading.{is_byte, behind_first, before_last_byte};

/// What stands in a text before the first byte that is `byte`, or the whole text where there is none; and
/// what stands behind that byte.
#[tactic(auto, unfolding(crate::specs::Reading::behind_first))]
pub(crate) fn cut(text: &[u8], byte: u8) -> (&[u8], Option<&[u8]>)
    ensures front { result.0.now ≡ before_first (is_byte byte) text.now }
    ensures behind { option_copied result.1 ≡ behind_first byte text.now }
{
    match index_of(text, byte) {
        Some(at) => (&text[..at], Some(&text[at + 1..])),
        None => (text, None),
    }
}

/// The index of the first byte that is `byte`.
fn index_of(text: &[u8], byte: u8) -> Option<usize>
    ensures { result ≡ position (is_byte byte) text.now }
{
    text.iter().position(|b| *b == byte)
}

/// What stands before the last byte of a text, where it is this one.
#[tactic(auto, unfolding(crate::specs::Reading::before_last_byte))]
pub(crate) fn before_last(text: &[u8], byte: u8) -> Option<&[u8]>
    ensures { option_copied result ≡ before_last_byte byte text.now }
{
    text.strip_suffix(&[byte])
}
