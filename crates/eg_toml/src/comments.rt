// The comments with which a document begins.
ghost use Rattle.std.specs.Prelude.{◌≡◌, ◌∷◌, ◌<◌, ◌≤◌, IfSome, length};
ghost use Rattle.std.specs.List.{prefix_len};
ghost use Rattle.eg_toml.specs.Inner.Comments.{IsKeptBy, is_visible};
ghost use Rattle.eg_toml.specs.Weight.{weight_of};

/// The document behind the comments and empty lines at its front, as far as these are of visible ASCII
/// characters and tabs; None where it doesn't begin with one. It is weighed and read in place of the whole:
/// `toml` goes over the front of a document twice, in six times as many instructions.
pub(crate) fn below_comments(bytes: &[u8]) -> Option<&[u8]>
    ensures same { IfSome result (λ rest. IsKeptBy bytes.now rest.now) }
    ensures weight { IfSome result (λ rest. weight_of rest.now ≡ weight_of bytes.now) }
{
    let mut rest = behind_line(bytes)?;
    while let Some(behind) = behind_line(rest) {
        rest = behind;
    }
    Some(rest)
}

/// What stands behind the line feed at the front, or from the end of the comment at the front on.
fn behind_line(bytes: &[u8]) -> Option<&[u8]>
    ensures same { IfSome result (λ rest. IsKeptBy bytes.now rest.now) }
    ensures weight { IfSome result (λ rest. weight_of rest.now ≡ weight_of bytes.now) }
    ensures shorter { IfSome result (λ rest. length rest.now < length bytes.now) }
{
    if bytes.len() < 2 {
        return None;
    }
    if bytes[0] == b'#' {
        return from_line_feed(&bytes[1..]);
    }
    // A byte order mark counts where it stands first in a document, and nowhere else.
    if bytes[0] == b'\n' && bytes[1].is_ascii() {
        return Some(&bytes[1..]);
    }
    None
}

/// What stands from the first line feed on, if all bytes before it are visible: behind a `#`, a comment.
fn from_line_feed(bytes: &[u8]) -> Option<&[u8]>
    ensures same { IfSome result (λ rest. IsKeptBy (35 ∷ bytes.now) rest.now) }
    ensures weight { IfSome result (λ rest. weight_of rest.now ≡ weight_of (35 ∷ bytes.now)) }
    ensures within { IfSome result (λ rest. length rest.now ≤ length bytes.now) }
{
    let end = visible_length(bytes);
    if end >= bytes.len() || bytes[end] != b'\n' {
        return None;
    }
    Some(&bytes[end..])
}

/// How many visible bytes stand at the front.
fn visible_length(bytes: &[u8]) -> usize
    ensures length { result ≡ prefix_len is_visible bytes.now }
    ensures within { result ≤ length bytes.now }
{
    bytes.iter().take_while(|byte| is_visible(**byte)).count()
}

#[inline]
fn is_visible(byte: u8) -> bool
    ensures { result ≡ is_visible byte }
{
    byte == b'\t' || (32 <= byte && byte <= 126)
}
