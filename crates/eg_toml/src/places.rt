// Where the bytes of a document stand.
ghost use Rattle.std.specs.Prelude.{◌≡◌};
ghost use Rattle.eg_toml.specs.Places as spec;

/// Where a byte of a document stands (docs/FORMATS.md, "What a document weighs"). A text knows the delimiter
/// with which it began.
#[derive(Clone, Copy, PartialEq, Eq)]
pub enum Place {
    /// Outside of comments and texts.
    Outside,
    /// In a comment.
    Comment,
    /// Behind the delimiter that opens a text.
    Opened(u8),
    /// Behind a second one: an empty text, if no third follows.
    Empty(u8),
    /// In a text of one line.
    Line(u8),
    /// In a text of several lines, behind this many of its delimiters in a row, counted up to three.
    Lines(u8, u8),
    /// Behind a backslash in a text of one line.
    Escape,
    /// Behind a backslash in a text of several lines.
    EscapeInLines,
}

impl Place {
    /// The place at which this byte stands. Where it isn't the delimiter, it stands outside behind the two
    /// delimiters of an empty text, and behind three or more that end a text of several lines.
    #[inline]
    pub(crate) fn settled(self, byte: u8) -> Place
        ensures { result ≡ spec.settled self byte }
    {
        match self {
            Place::Empty(delimiter) if byte != delimiter => Place::Outside,
            Place::Lines(delimiter, run) if run >= 3 && byte != delimiter => Place::Outside,
            place => place,
        }
    }

    /// The place behind a byte that stands here.
    #[inline]
    pub(crate) fn behind(self, byte: u8) -> Place
        ensures { result ≡ spec.behind self byte }
    {
        match self {
            Place::Outside => behind_outside(byte),
            Place::Comment => if byte == b'\n' {
                Place::Outside
            } else {
                Place::Comment
            },
            Place::Opened(delimiter) => if byte == delimiter {
                Place::Empty(delimiter)
            } else {
                in_line(delimiter, byte)
            },
            Place::Empty(delimiter) => Place::Lines(delimiter, 0),
            Place::Line(delimiter) => if byte == delimiter {
                Place::Outside
            } else {
                in_line(delimiter, byte)
            },
            Place::Lines(delimiter, run) => if byte == delimiter {
                Place::Lines(delimiter, if run >= 3 { 3 } else { run + 1 })
            } else {
                in_lines(delimiter, byte)
            },
            Place::Escape => Place::Line(b'"'),
            Place::EscapeInLines => Place::Lines(b'"', 0),
        }
    }
}

#[inline]
fn behind_outside(byte: u8) -> Place
    ensures { result ≡ spec.behind_outside byte }
{
    match byte {
        b'#' => Place::Comment,
        b'"' | b'\'' => Place::Opened(byte),
        _ => Place::Outside,
    }
}

#[inline]
fn in_line(delimiter: u8, byte: u8) -> Place
    ensures { result ≡ spec.in_line delimiter byte }
{
    if byte == b'\\' && delimiter == b'"' {
        Place::Escape
    } else {
        Place::Line(delimiter)
    }
}

#[inline]
fn in_lines(delimiter: u8, byte: u8) -> Place
    ensures { result ≡ spec.in_lines delimiter byte }
{
    if byte == b'\\' && delimiter == b'"' {
        Place::EscapeInLines
    } else {
        Place::Lines(delimiter, 0)
    }
}
