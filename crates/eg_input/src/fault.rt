// Why a file is refused.
use thiserror::Error;

/// Why a file of rows is refused (docs/FORMATS.md, "Check files and traces").
#[derive(Clone, Copy, Debug, PartialEq, Eq, Error)]
pub enum TraceFault {
    /// There was no memory for the rows.
    #[error("no memory")]
    Memory,
    /// The first record is none of the headers of such a file, or there is no record.
    #[error("header")]
    Header,
    /// The record at this place, the header's being 1, is the first below the header that writes no row.
    #[error("record {line}")]
    Row { line: u32 },
    /// Nothing stands below the header.
    #[error("no records")]
    Empty,
    /// More than 20,000 records stand below the header.
    #[error("more than 20000 records")]
    Long,
}

/// Why an image is refused (docs/FORMATS.md, "Images").
#[derive(Clone, Copy, Debug, PartialEq, Eq, Error)]
pub enum ImageFault {
    /// There was no memory for the words.
    #[error("no memory")]
    Memory,
    /// The line at this place, the first line's being 1, is the first that writes no word.
    #[error("line {line}")]
    Line { line: u32 },
    /// Something stands after 1,024 good lines.
    #[error("more than 1024 lines")]
    Long,
}
