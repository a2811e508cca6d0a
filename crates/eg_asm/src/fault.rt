// Why a source is refused.
use thiserror::Error;

/// Why a source is refused (docs/FORMATS.md, "Sources").
#[derive(Clone, Copy, Debug, PartialEq, Eq, Error)]
pub enum AsmFault {
    /// There was no memory for the words.
    #[error("no memory")]
    Memory,
    /// The line of this number, the first line's being 1, is the first that isn't of the grammar.
    #[error("line {line}")]
    Line { line: u32 },
    /// The line of this number is the first that repeats a label, or whose target names no label or lies out
    /// of range.
    #[error("label in line {line}")]
    Label { line: u32 },
    /// Something but an empty line, a comment or a label stands after 1,024 instructions.
    #[error("more than 1024 words")]
    Long,
}
