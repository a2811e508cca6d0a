// The numbers among the words of the command line.
ghost use Rattle.std.specs.Prelude.{◌≡◌, ◌≤◌};
ghost use Rattle.eg_desk.specs.Words.{number_in};

use eg_input::decimal_in;

/// The number that a word of 1 to `digits` decimal digits writes, where it is from `least` to `most`
/// (docs/FORMATS.md, "Commands").
pub(crate) fn number_in(word: &[u8], digits: usize, least: u32, most: u32) -> Option<u32>
    requires { digits ≤ 10 }
    ensures { result ≡ number_in digits least most word.now }
{
    let value = decimal_in(word, digits)?;
    if value >= u64::from(least) && value <= u64::from(most) {
        Some(value as u32)
    } else {
        None
    }
}
