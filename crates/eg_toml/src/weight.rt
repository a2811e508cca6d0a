// What a document weighs.
ghost use Rattle.std.specs.Prelude.{◌≡◌, ◌≢◌, ◌+◌, ◌<◌, ◌≤◌, ◌^◌, All, fold, length, take};
ghost use Rattle.eg_toml.specs.Weight as spec;

use crate::places::Place;
use arrayvec::ArrayVec;
use memchr::memchr;
use std::marker::Model;

/// What is due where the next byte of a document stands (docs/FORMATS.md, "What a document weighs").
#[derive(Clone, Copy, PartialEq, Eq)]
pub enum Due {
    /// A name, a heading, or the rest of what has begun.
    Nothing,
    /// Behind the first bracket of a heading: a second one, or a name.
    Heading,
    /// The value of a name.
    Value,
    /// A value of a list, or a name behind a comma.
    Item,
}

/// What stands in a list or an inline table, or behind a heading (docs/FORMATS.md, "What a document weighs").
#[derive(Clone, Copy, Default)]
pub struct Counts {
    /// How many values the list has so far.
    pub values: u64,
    /// How many names the table has so far.
    pub names: u64,
}

/// Nothing stands there yet.
const NO_COUNTS: Counts = Counts {
    values: 0,
    names: 0,
};

/// The greatest weight with which a document is read.
const HEAVIEST: u128 = 55_000_000;

/// How many lists and inline tables may stand in one another.
const MOST_OPEN: usize = 80;

/// What a heading weighs.
const HEADING: u128 = 1480;

/// What a table weighs: a `{`, or a name with a `.` behind it.
const TABLE: u128 = 1296;

/// What a text weighs that is a value.
const TEXT: u128 = 32;

/// How many names a table has room for at first.
const FIRST_NAMES: u64 = 15;

/// What each of these names weighs.
const NAME: u128 = 32;

/// What each further name weighs.
const NAME_MORE: u128 = 27_000;

/// Among so many bytes a line feed is looked for one by one, in less time than by `memchr`.
const NEAR: usize = 8;

/// What is known behind some bytes of a document. Contracts see a `Weighed`.
#[derive(Drop)]
struct Scale {
    place: Place,
    due: Due,
    counts: Counts,
    around: ArrayVec<Counts, MOST_OPEN>,
    weight: u128,
}

impl Model for Scale {
    ghost use Rattle.eg_toml.specs.Weight.{Weighed};

    ghost Value = { Weighed };

    ghost view = { λ s. record {
      place = s.place;
      due = s.due;
      counts = s.counts;
      around = s.around.items;
      weight = s.weight;
    } };
}

/// Whether a document weighs too much to be read (docs/FORMATS.md, "What a document weighs").
pub fn is_too_heavy(bytes: &[u8]) -> bool
    ensures { result ≡ spec.is_too_heavy bytes.now }
{
    let mut scale = Scale::new();
    let mut rest = bytes;
    while let [byte, behind @ ..] = rest {
        scale.put(*byte);
        if scale.weight > HEAVIEST {
            return true;
        }
        rest = scale.past_comments(behind);
    }
    false
}

/// How many bytes stand before the first line feed, or how many there are.
fn line_length(bytes: &[u8]) -> usize
    ensures within { result ≤ length bytes.now }
    ensures before { All (λ byte. byte ≢ 10) (take result bytes.now) }
{
    let near = near_length(bytes);
    if near < NEAR { near } else { far_length(bytes) }
}

/// The same, or `NEAR` if that is less.
fn near_length(bytes: &[u8]) -> usize
    ensures within { result ≤ length bytes.now }
    ensures before { All (λ byte. byte ≢ 10) (take result bytes.now) }
{
    bytes
        .iter()
        .take(NEAR)
        .take_while(|byte| **byte != b'\n')
        .count()
}

/// The same as `line_length`, in less time for long lines and in more for short ones.
fn far_length(bytes: &[u8]) -> usize
    ensures within { result ≤ length bytes.now }
    ensures before { All (λ byte. byte ≢ 10) (take result bytes.now) }
{
    match memchr(b'\n', bytes) {
        Some(place) => place,
        None => bytes.len(),
    }
}

impl Scale {
    /// What is known before the first byte.
    fn new() -> Scale
        ensures { result ≡ spec.unweighed }
    {
        Scale {
            place: Place::Outside,
            due: Due::Nothing,
            counts: NO_COUNTS,
            around: ArrayVec::new(),
            weight: 0,
        }
    }

    /// Weighs one byte more.
    #[inline]
    fn put(&mut self, byte: u8)
        requires small { self.old.weight ≤ spec.heaviest }
        requires values { self.old.counts.values + 1 < 2 ^ 64 }
        requires names { self.old.counts.names + 1 < 2 ^ 64 }
        ensures { self.new ≡ spec.weighed_on self.old byte }
    {
        let place = self.place.settled(byte);
        // White space and the begin of a comment weigh nothing.
        if place == Place::Outside && !is_between(byte) {
            self.put_outside(byte);
        }
        self.place = place.behind(byte);
    }

    /// What is left of the bytes that come next without the rest of the comment that they stand in, if any,
    /// and the comments on the lines below, which weigh nothing.
    fn past_comments<'a>(&self, bytes: &'a [u8]) -> &'a [u8]
        ensures same { fold spec.weighed_on self.now result.now ≡ fold spec.weighed_on self.now bytes.now }
        ensures short { length result.now ≤ length bytes.now }
    {
        let Place::Comment = self.place else {
            return bytes;
        };
        let mut rest = &bytes[line_length(bytes)..];
        while let [b'\n', b'#', below @ ..] = rest {
            rest = &below[line_length(below)..];
        }
        rest
    }

    /// Weighs one byte more, which stands outside of comments and texts.
    fn put_outside(&mut self, byte: u8)
        requires small { self.old.weight ≤ spec.heaviest }
        requires values { self.old.counts.values + 1 < 2 ^ 64 }
        requires names { self.old.counts.names + 1 < 2 ^ 64 }
        ensures { self.new ≡ spec.weighed_outside self.old byte }
    {
        self.put_item(byte);
        self.put_sign(byte);
        self.put_bracket(byte);
        self.due = self.due.behind(byte);
    }

    /// Weighs and counts a value of a list, where the byte begins one.
    fn put_item(&mut self, byte: u8)
        requires small { self.old.weight ≤ spec.heaviest }
        requires values { self.old.counts.values + 1 < 2 ^ 64 }
        ensures { self.new ≡ spec.with_item self.old byte }
    {
        if self.due.begins_item(byte) {
            self.weight += value_weight(self.counts.values);
            self.counts.values += 1;
        }
    }

    /// Weighs the byte as a sign, and counts names.
    fn put_sign(&mut self, byte: u8)
        requires small { self.old.weight < 2 ^ 80 }
        requires names { self.old.counts.names + 1 < 2 ^ 64 }
        ensures { self.new ≡ spec.with_sign self.old byte }
    {
        self.weight += sign_weight(self.due, self.counts.names, byte);
        self.counts.names = names_behind(self.due, self.counts.names, byte);
    }

    /// Opens or closes a list or an inline table, where the byte does.
    fn put_bracket(&mut self, byte: u8)
        ensures { self.new ≡ spec.with_lists self.old byte }
    {
        if self.due.is_opening(byte) {
            self.open();
        } else if is_closing(byte) {
            self.counts = self.around.pop().unwrap_or(NO_COUNTS);
        }
    }

    /// Opens a list or an inline table. What stands around it is kept as deep as `toml` reads.
    fn open(&mut self)
        ensures { self.new ≡ spec.opened self.old }
    {
        let _ = self.around.try_push(self.counts);
        self.counts = NO_COUNTS;
    }
}

impl Due {
    /// Whether a byte begins a value of a list.
    #[inline]
    fn begins_item(self, byte: u8) -> bool
        ensures { result ≡ spec.begins_item self byte }
    {
        self == Due::Item && !(is_between(byte) || is_closing(byte))
    }

    /// Whether a byte begins a heading.
    #[inline]
    fn begins_heading(self, byte: u8) -> bool
        ensures { result ≡ spec.begins_heading self byte }
    {
        self == Due::Nothing && byte == b'['
    }

    /// Whether a value may stand here.
    #[inline]
    fn takes_value(self) -> bool
        ensures { result ≡ spec.takes_value self }
    {
        matches!(self, Due::Value | Due::Item)
    }

    /// Whether a byte opens a list or an inline table.
    #[inline]
    fn is_opening(self, byte: u8) -> bool
        ensures { result ≡ spec.is_opening self byte }
    {
        byte == b'{' || (byte == b'[' && self.takes_value())
    }

    /// What is due behind a byte.
    #[inline]
    fn behind(self, byte: u8) -> Due
        ensures { result ≡ spec.due_behind self byte }
    {
        match byte {
            b' ' | b'\t' | b'\n' | b'\r' | b'#' => self,
            b',' => Due::Item,
            b'=' => Due::Value,
            b'[' => self.behind_bracket(),
            _ => Due::Nothing,
        }
    }

    #[inline]
    fn behind_bracket(self) -> Due
        ensures { result ≡ spec.due_behind_bracket self }
    {
        match self {
            Due::Nothing => Due::Heading,
            Due::Heading => Due::Nothing,
            Due::Value | Due::Item => Due::Item,
        }
    }
}

#[inline]
fn is_between(byte: u8) -> bool
    ensures { result ≡ spec.is_between byte }
{
    matches!(byte, b' ' | b'\t' | b'\n' | b'\r' | b'#')
}

#[inline]
fn is_closing(byte: u8) -> bool
    ensures { result ≡ spec.is_closing byte }
{
    byte == b']' || byte == b'}'
}

/// What a byte weighs as a sign, behind this many names of its table.
#[inline]
fn sign_weight(due: Due, names: u64, byte: u8) -> u128
    ensures { result ≡ spec.sign_weight due names byte }
{
    match byte {
        b'.' | b'{' => TABLE,
        b'[' if due.begins_heading(byte) => HEADING,
        b'=' => if names < FIRST_NAMES { NAME } else { NAME_MORE },
        b'"' | b'\'' if due.takes_value() => TEXT,
        _ => 0,
    }
}

/// How many names stand behind a byte.
#[inline]
fn names_behind(due: Due, names: u64, byte: u8) -> u64
    requires { names + 1 < 2 ^ 64 }
    ensures { result ≡ spec.names_behind due names byte }
{
    if due.begins_heading(byte) {
        0
    } else if byte == b'=' {
        names + 1
    } else {
        names
    }
}

/// What a value of a list weighs behind this many others of the list.
#[inline]
fn value_weight(values: u64) -> u128
    ensures { result ≡ spec.value_weight values }
{
    if values == 0 {
        184
    } else if values >= 4 && values & (values - 1) == 0 {
        40 * u128::from(values)
    } else {
        0
    }
}
