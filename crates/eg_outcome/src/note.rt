// The line that notes how a call ended.
ghost use Rattle.std.specs.Prelude.{◌≡◌, ◌++◌, map};
ghost use Rattle.std.specs.List.{concat};
ghost use Rattle.eg_outcome.specs.Notes.{PutsNote, note_of, line_said};
ghost use Rattle.eg_outcome.specs.Shown.{Puts, shown_name};
ghost use Rattle.eg_outcome.specs.Changes.{change_of};
ghost use Rattle.eg_outcome.specs.declared.outcome.Outcome.TheVariants.{Done};

use crate::Outcome;
use crate::says::{Says, refusal_says};
use crate::shown::put_name;
use eg_base::{MemorySink, PutRefusal, Sink};
use itoa::Buffer;
use std::alloc::Global;

/// Puts the line that notes this outcome, for a file of this name (docs/FORMATS.md, "Notes"): in one put, or,
/// where memory has run out, piece by piece up to the first that is refused.
pub fn put_note<N: Sink>(alloc: Global, outcome: &Outcome, file: &str, notes: &mut N)
    ensures note { PutsNote (change_of N.shows notes.old notes.new) (note_of outcome.now file.now) }
    ensures done { outcome.now ≡ Done → notes.new ≡ notes.old }
{
    if let Outcome::Done = outcome {
        return;
    }
    let file = file.as_bytes();
    let mut line = MemorySink::new(alloc);
    let Ok(()) = put_note_line(outcome, file, &mut line) else {
        let _ = put_note_line(outcome, file, notes);
        return;
    };
    let _ = notes.put(line.bytes());
}

/// Puts the line piece by piece.
fn put_note_line<N: Sink>(outcome: &Outcome, file: &[u8], notes: &mut N) -> Result<(), PutRefusal>
    ensures { Puts (N.shows notes.old) (N.shows notes.new) (note_of outcome.now file.now) result }
{
    match outcome {
        Outcome::Done => Ok(()),
        Outcome::Usage => notes.put(b"not a command of egasim\n"),
        Outcome::ReadFault { .. } => put_around(b"cannot read ", file, &["\n"], notes),
        Outcome::Refused(refusal) => put_said(refusal_says(refusal), file, notes),
        Outcome::WriteFault => notes.put(b"cannot write\n"),
        Outcome::Memory => notes.put(b"no memory\n"),
    }
}

/// Puts the line that says this of the file.
fn put_said<N: Sink>(says: Says<'_>, file: &[u8], notes: &mut N) -> Result<(), PutRefusal>
    ensures { Puts (N.shows notes.old) (N.shows notes.new) (line_said says.entry file.now) result }
{
    let mut digits = Buffer::new();
    match says {
        Says::Words(words) => put_behind(file, &[": ", words, "\n"], notes),
        Says::Key(before, key) => put_behind(file, &[": ", before, key, "\n"], notes),
        Says::Number(before, number) => {
            let number = digits.format(number);
            put_behind(file, &[": ", before, number, "\n"], notes)
        }
        Says::Between(before, number, behind) => {
            let number = digits.format(number);
            put_behind(file, &[": ", before, number, behind, "\n"], notes)
        }
        Says::RunKey(run, key) => {
            let run = digits.format(run);
            put_behind(file, &[": run ", run, " key ", key, "\n"], notes)
        }
        Says::Alone(words) => put_pieces(&[words, "\n"], notes),
    }
}

/// Puts words, the name of the file, and the pieces behind it.
fn put_around<N: Sink>(
    words: &[u8],
    file: &[u8],
    pieces: &[&str],
    notes: &mut N,
) -> Result<(), PutRefusal>
    ensures { Puts (N.shows notes.old) (N.shows notes.new)
        (words.now ++ (shown_name file.now ++ concat (map (λ piece. piece.now) pieces.now))) result }
{
    notes.put(words)?;
    put_behind(file, pieces, notes)
}

/// Puts the name of the file, and the pieces behind it.
fn put_behind<N: Sink>(file: &[u8], pieces: &[&str], notes: &mut N) -> Result<(), PutRefusal>
    ensures { Puts (N.shows notes.old) (N.shows notes.new)
        (shown_name file.now ++ concat (map (λ piece. piece.now) pieces.now)) result }
{
    put_name(file, notes)?;
    put_pieces(pieces, notes)
}

/// Puts these pieces, up to the first that is refused.
fn put_pieces<N: Sink>(pieces: &[&str], notes: &mut N) -> Result<(), PutRefusal>
    ensures { Puts (N.shows notes.old) (N.shows notes.new)
        (concat (map (λ piece. piece.now) pieces.now)) result }
{
    for piece in pieces {
        notes.put(piece.as_bytes())?;
    }
    Ok(())
}
