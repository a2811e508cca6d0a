// Decimal numbers.
ghost use Rattle.std.specs.Prelude.{◌≡◌, ◌≤◌};
ghost use Rattle.eg_input.specs.Fields.{decimal};

/// The number that a word of one to `most` decimal digits writes, or None where the word is empty, is longer
/// or has another byte.
#[tactic(auto, unfolding(crate::specs::Fields::decimal_value))]
pub fn decimal_in(word: &[u8], most: usize) -> Option<u64>
    requires { most ≤ 19 }
    ensures { result ≡ decimal most word.now }
{
    if word.is_empty() || word.len() > most {
        return None;
    }
    let mut value = 0u64;
    for byte in word {
        if !byte.is_ascii_digit() {
            return None;
        }
        value = 10 * value + u64::from(*byte - b'0');
    }
    Some(value)
}
