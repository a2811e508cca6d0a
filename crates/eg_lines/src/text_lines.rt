// The lines that the two sources in memory hold.
ghost use Rattle.std.specs.Prelude.{◌≡◌, ◌≢◌, ◌<◌, ◌≤◌, length, take, slice_index, All, IfOk, OnErr, IsOkUnless, vec_items, vec_len, vec_capacity, ◌+◌};
ghost use Rattle.eg_base.specs.declared.store.ReadRefusal.TheVariants.{Memory};
ghost use Rattle.eg_lines.specs.Sources.{Gives};
ghost use Rattle.eg_lines.specs.Lines.{lines_in};

use eg_base::ReadRefusal;
use memchr::memchr;
use std::marker::Model;

/// The lines of a text that are still to come.
#[derive(Drop)]
pub(crate) struct TextLines {
    text: Vec<u8>,
    start: usize,
}

impl Model for TextLines {
    ghost use Rattle.std.specs.Prelude.{ℕ, ◌≤◌, List, drop, vec_len};
    ghost use Rattle.eg_lines.specs.Lines.{lines_in};

    ghost Value = { List (List ℕ) };

    ghost view = { λ s. lines_in (drop s.start s.text.items) };

    ghost invariant = { λ s. s.start ≤ vec_len s.text };
}

impl TextLines {
    /// All lines of this text.
    pub(crate) fn new(text: Vec<u8>) -> TextLines
        ensures { result ≡ lines_in text.items }
    {
        TextLines { text, start: 0 }
    }

    /// Appends the first `most` bytes of the next line to `into`, or all where it is shorter. Answers whether
    /// there was a line. Refused only where memory runs out, for a buffer without room for `most` bytes.
    pub(crate) fn next(&mut self, most: usize, into: &mut Vec<u8>) -> Result<bool, ReadRefusal>
        ensures refused { IsOkUnless result Memory }
        ensures full { OnErr result (vec_capacity into.old < vec_len into.old + most) }
        ensures given { IfOk result
            (λ came. Gives most self.old came self.new into.old.items into.new.items) }
        ensures kept { OnErr result (self.new ≡ self.old) }
        ensures unchanged { OnErr result (into.new.items ≡ into.old.items) }
    {
        let rest = &self.text[self.start..];
        if rest.is_empty() {
            return Ok(false);
        }
        let length = line_length(rest, rest.len());
        into.extend_from_slice(&rest[..length.min(most)])?;
        self.start += rest.len().min(length + 1);
        Ok(true)
    }
}

/// How many bytes stand before the first line feed, or `most` where they are more.
pub(crate) fn line_length(bytes: &[u8], most: usize) -> usize
    ensures most { result ≤ most }
    ensures within { result ≤ length bytes.now }
    ensures before { All (λ byte. byte ≢ 10) (take result bytes.now) }
    ensures stops { result < most → result < length bytes.now → slice_index bytes.now result ≡ 10 }
{
    let shown = &bytes[..bytes.len().min(most)];
    match memchr(b'\n', shown) {
        Some(place) => place,
        None => shown.len(),
    }
}
