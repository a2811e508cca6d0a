// How a note shows a name.
ghost use Rattle.std.specs.Prelude.{◌≡◌, ◌<◌, ◌+◌, ◌++◌, ◌∷◌, [], codes, length, drop, get_or};
ghost use Rattle.hex.specs.Hex.{encode_lower};
ghost use Rattle.eg_outcome.specs.Shown.{is_high, is_control, shown_byte, shown_name, Puts};

use eg_base::{PutRefusal, Sink};

/// Puts a name as a note shows it, byte for byte, up to the first that is refused.
pub(crate) fn put_name<N: Sink>(name: &[u8], notes: &mut N) -> Result<(), PutRefusal>
    ensures { Puts (N.shows notes.old) (N.shows notes.new) (shown_name name.now) result }
{
    let mut before = 0;
    for i in 0..name.len() {
        put_byte(before, name[i], behind(name, i), notes)?;
        before = name[i];
    }
    Ok(())
}

/// The byte behind one of a name, or 0 behind the last.
fn behind(name: &[u8], index: usize) -> u8
    requires { index < length name.now }
    ensures { result ≡ get_or (drop (index + 1) name.now) 0 0 }
{
    if index + 1 < name.len() {
        name[index + 1]
    } else {
        0
    }
}

/// Puts a byte as it is shown between these two.
#[tactic(auto, unfolding(crate::specs::Shown::shown_byte))]
fn put_byte<N: Sink>(before: u8, byte: u8, behind: u8, notes: &mut N) -> Result<(), PutRefusal>
    ensures { Puts (N.shows notes.old) (N.shows notes.new) (shown_byte before byte behind) result }
{
    if is_control(before, byte, behind) {
        return put_digits(byte, notes);
    }
    if byte == b'\\' {
        return notes.put(b"\\\\");
    }
    notes.put(&[byte])
}

/// Puts a byte of a control character as its two hexadecimal digits behind `\x`.
fn put_digits<N: Sink>(byte: u8, notes: &mut N) -> Result<(), PutRefusal>
    ensures { Puts (N.shows notes.old) (N.shows notes.new)
        (codes "\\x" ++ encode_lower (byte ∷ [])) result }
{
    let mut digits = [0; 2];
    hex::encode_to_slice([byte].as_slice(), &mut digits).unwrap();
    notes.put(&[b'\\', b'x', digits[0], digits[1]])
}

/// Whether a byte is of a control character, where these stand before it and behind it.
#[tactic(auto, unfolding(crate::specs::Shown::is_control))]
fn is_control(before: u8, byte: u8, behind: u8) -> bool
    ensures { result ≡ is_control before byte behind }
{
    byte < 32 || byte == 127 || (byte == 194 && is_high(behind)) || (before == 194 && is_high(byte))
}

/// Whether this is one of the bytes 128 to 159.
#[tactic(auto, unfolding(crate::specs::Shown::is_high))]
fn is_high(byte: u8) -> bool
    ensures { result ≡ is_high byte }
{
    128 <= byte && byte <= 159
}
