// Numerals.
ghost use Rattle.std.specs.Prelude.{◌≡◌, min, option_map};
ghost use Rattle.eg_asm.specs.Reading.{numeral_in};

/// A number that no operand takes: each larger number is read as this one.
pub(crate) const TOO_LARGE: u32 = 65_536;

/// The number that a numeral writes (docs/FORMATS.md, "Sources"), or 65,536 where it writes more.
#[tactic(auto, unfolding(crate::specs::Reading::is_numeral, crate::specs::Reading::numeral_in))]
pub(crate) fn numeral(text: &[u8]) -> Option<u32>
    ensures { result ≡ option_map (min 65536) (numeral_in text.now) }
{
    if text == b"0".as_slice() {
        return Some(0);
    }
    if text.is_empty() || text[0] <= b'0' {
        return None;
    }
    let mut value = 0;
    for byte in text {
        if !byte.is_ascii_digit() {
            return None;
        }
        value = TOO_LARGE.min(10 * value + u32::from(*byte - b'0'));
    }
    Some(value)
}
