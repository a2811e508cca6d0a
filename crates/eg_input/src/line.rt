// The end of a line.
ghost use Rattle.std.specs.Prelude.{◌≡◌};
ghost use Rattle.eg_input.specs.Recording.{before_return};

/// The line without the carriage return that it may end with.
#[tactic(auto, unfolding(crate::specs::Recording::before_return))]
pub(crate) fn before_return(line: &[u8]) -> &[u8]
    ensures { result.now ≡ before_return line.now }
{
    match line.strip_suffix(b"\r") {
        Some(before) => before,
        None => line,
    }
}
