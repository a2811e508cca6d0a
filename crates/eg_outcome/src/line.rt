// The lines that a command writes.
ghost use Rattle.std.specs.Prelude.{◌≡◌, ◌++◌, ◌≤◌, length, map, string_bytes};
ghost use Rattle.std.specs.List.{concat};
ghost use Rattle.eg_outcome.specs.Changes.{change_of};
ghost use Rattle.eg_outcome.specs.Outcomes.{PutsText};

use crate::Outcome;
use eg_base::{PutRefusal, Sink};

/// Puts one line of a command to its output, in one piece (docs/FORMATS.md, "Outcomes"): WriteFault where the
/// output counts a fault, Memory where memory runs out. The line has its LF.
pub fn put_line<K: Sink>(line: &[u8], out: &mut K) -> Outcome
    ensures { PutsText line.now (change_of K.shows out.old out.new) result }
{
    match out.put(line) {
        Ok(()) => Outcome::Done,
        Err(PutRefusal::Failed) => Outcome::WriteFault,
        Err(PutRefusal::Memory) => Outcome::Memory,
    }
}

/// Puts the lines of a command to its output, one after another, up to the first that is refused
/// (docs/FORMATS.md, "Outcomes").
pub fn put_lines<K: Sink>(lines: &[String], out: &mut K) -> Outcome
    ensures { PutsText (concat (map string_bytes lines.now)) (change_of K.shows out.old out.new) result }
{
    for line in lines {
        match put_line(line.as_bytes(), out) {
            Outcome::Done => {}
            refused => return refused,
        }
    }
    Outcome::Done
}

/// Puts a text to the output of a command, each of its lines in one piece, one after another up to the first
/// that is refused (docs/FORMATS.md, "Outcomes").
pub fn put_text<K: Sink>(text: &[u8], out: &mut K) -> Outcome
    ensures { PutsText text.now (change_of K.shows out.old out.new) result }
{
    let mut rest = text;
    while !rest.is_empty() {
        let (line, after) = split_line(rest);
        match put_line(line, out) {
            Outcome::Done => rest = after,
            refused => return refused,
        }
    }
    Outcome::Done
}

/// The first line of a text, with its line feed, and what stands behind it. A text without a line feed is one
/// line.
fn split_line(text: &[u8]) -> (&[u8], &[u8])
    requires { 1 ≤ length text.now }
    ensures parts { text.now ≡ result.0.now ++ result.1.now }
    ensures some { 1 ≤ length result.0.now }
{
    let feed = text.iter().position(|byte| *byte == b'\n');
    let end = feed.map_or(text.len(), |index| index + 1);
    text.split_at(end)
}
