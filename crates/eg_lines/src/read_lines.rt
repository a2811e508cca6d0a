// The lines of a buffered reader.
ghost use Rattle.std.specs.Prelude.{◌≡◌, ◌≢◌, ◌≤◌, [], ◌++◌, take, All, Ok, true, false, not, Some, None, IsSome, OnOk, OnErr, IfOk, IsErrOf, option_map};
ghost use Rattle.eg_base.specs.declared.store.ReadRefusal.TheVariants.{Failed, Memory};
ghost use Rattle.eg_base.specs.Counts.{next_count};
ghost use Rattle.eg_base.specs.Outside.{BeginsWith};
ghost use Rattle.eg_lines.specs.declared.read_lines.Piece.TheVariants.{Cut};
ghost use Rattle.eg_lines.specs.Lines.{lines_in, NextLine, EndsLines};
ghost use Rattle.eg_lines.specs.Readers.{GivesLine, HasEnded, KeepsLines, ReadsPiece, is_cut, lines_left, shown_by};

use crate::Lines;
use crate::text_lines::line_length;
use eg_base::ReadRefusal;
use std::alloc::Global;
use std::io::{BufRead, ErrorKind};
use std::marker::Model;

/// The lines of a buffered reader, such as standard input behind a `BufReader`. They are told where `told`
/// made the source, of a reader that tells its bytes; `new` makes one of which nothing is told. Neither is
/// sure.
///
/// A line is answered as soon as the reader shows its line feed, and nothing behind that is waited for. Of a
/// line of more than `most` bytes the rest stays in the reader, and is passed over before the next line is
/// read, so that no line takes more memory. Each read that fails is a fault, but one that is interrupted is
/// made again. What was taken of a line before a read failed is kept, and begins the line that is given next.
///
/// Contracts see a `ReaderState`: the lines that the reader tells, whether contracts are told of them, and
/// the count of faults.
#[derive(Drop)]
pub struct ReadLines<R: BufRead + Drop> {
    reader: R,
    begun: Vec<u8>,
    is_within: bool,
    is_told: bool,
    faults: u64,
}

impl<R: BufRead + Drop> Model for ReadLines<R> {
    ghost use Rattle.std.specs.Prelude.{◌≡◌, ◌≢◌, [], All, IsTrue, IsSome};
    ghost use Rattle.eg_lines.specs.Readers.{ReaderState, lines_left};

    ghost Value = { ReaderState };

    ghost view = { λ s. record {
      lines = lines_left s.begun.items s.is_within (R.remaining s.reader);
      is_told = s.is_told;
      faults = s.faults;
    } };

    ghost invariant = { λ s. All (λ byte. byte ≢ 10) s.begun.items
        × (IsTrue s.is_within → s.begun.items ≡ [])
        × (IsTrue s.is_told → IsSome (R.remaining s.reader)) };
}

impl<R: BufRead + Drop> ReadLines<R> {
    /// The lines that this reader has left, of which nothing is told.
    pub fn new(alloc: Global, reader: R) -> ReadLines<R>
        ensures state { result ≡ record {
          lines = option_map lines_in (R.remaining reader);
          is_told = false;
          faults = 0;
        } }
        ensures shown { ⟦<ReadLines<R> as Lines>⟧.shows result
            ≡ record { lines = None; faults = 0; sure = false } }
    {
        ReadLines {
            reader,
            begun: Vec::new(alloc),
            is_within: false,
            is_told: false,
            faults: 0,
        }
    }

    /// The lines that this reader has left, which tells its bytes, as a slice of bytes does.
    pub fn told(alloc: Global, reader: R) -> ReadLines<R>
        requires { IsSome (R.remaining reader) }
        ensures state { result ≡ record {
          lines = option_map lines_in (R.remaining reader);
          is_told = true;
          faults = 0;
        } }
        ensures shown { ⟦<ReadLines<R> as Lines>⟧.shows result
            ≡ record { lines = option_map lines_in (R.remaining reader); faults = 0; sure = false } }
    {
        ReadLines {
            reader,
            begun: Vec::new(alloc),
            is_within: false,
            is_told: true,
            faults: 0,
        }
    }

    /// Reads on until the next line can be given, or the reader has no more bytes. Answers whether there was
    /// a line.
    fn take_line(&mut self, most: usize, into: &mut Vec<u8>) -> Result<bool, ReadRefusal>
        ensures came { result ≡ Ok true
            → GivesLine most self.old.lines self.new.lines into.old.items into.new.items }
        ensures none { result ≡ Ok false
            → HasEnded self.old.lines self.new.lines into.old.items into.new.items }
        ensures kept { OnErr result (BeginsWith into.old.items into.new.items) }
        ensures none_lost { OnErr result (KeepsLines self.old.lines self.new.lines) }
        ensures told { self.new.is_told ≡ self.old.is_told }
        ensures faults { self.new.faults ≡ self.old.faults }
    {
        for _ in 0..u64::MAX {
            match self.take_next(most, into)? {
                Piece::Part => {}
                Piece::Line | Piece::Cut => return Ok(true),
                Piece::End => return Ok(false),
            }
        }
        Err(ReadRefusal::Failed)
    }

    /// Takes what the reader shows at once of the next line, or of the rest of the last one.
    fn take_next(&mut self, most: usize, into: &mut Vec<u8>) -> Result<Piece, ReadRefusal>
        ensures taken { IfOk result
            (λ piece. ReadsPiece most self.old.lines self.new.lines piece into.old.items into.new.items) }
        ensures kept { OnErr result (BeginsWith into.old.items into.new.items) }
        ensures none_lost { OnErr result (KeepsLines self.old.lines self.new.lines) }
        ensures told { self.new.is_told ≡ self.old.is_told }
        ensures faults { self.new.faults ≡ self.old.faults }
    {
        if self.is_within {
            self.is_within = !pass_over(&mut self.reader)?;
            return Ok(Piece::Part);
        }
        let piece = take_piece(&mut self.reader, &mut self.begun, most, into)?;
        self.is_within = piece.is_cut();
        Ok(piece)
    }
}

impl<R: BufRead + Drop> Lines for ReadLines<R> {
    ghost shows = { shown_by };

    /// The next line of the reader, if there is one.
    ///
    /// Claim 58 (F13; `came`): A line that is read from a reader that tells its bytes is the first line that
    /// was left, or as many of its first bytes as were asked for. The other lines are still to come.
    fn next(&mut self, most: usize, into: &mut Vec<u8>) -> Result<bool, ReadRefusal>
        // Where the reader tells its bytes, this is their first line, or there is none. A refusal loses none.
        ensures came { result ≡ Ok true
            → GivesLine most self.old.lines self.new.lines into.old.items into.new.items }
        ensures none { result ≡ Ok false
            → HasEnded self.old.lines self.new.lines into.old.items into.new.items }
        ensures lost { OnErr result (KeepsLines self.old.lines self.new.lines) }

        // The trait's clauses, by what the source shows.
        ensures told { self.new.is_told ≡ self.old.is_told }
        ensures line { result ≡ Ok true → NextLine most (shown_by self.old) (shown_by self.new)
            into.old.items into.new.items }
        ensures end { result ≡ Ok false → EndsLines (shown_by self.old) (shown_by self.new)
            into.old.items into.new.items }
        ensures kept { OnErr result (BeginsWith into.old.items into.new.items) }
        ensures none_lost { OnErr result ((shown_by self.new).lines ≡ (shown_by self.old).lines) }

        // Each Failed is a fault, and nothing else is.
        ensures fault { IsErrOf result Failed → self.new.faults ≡ next_count self.old.faults }
        ensures no_fault { OnOk result (self.new.faults ≡ self.old.faults) }
        ensures memory { IsErrOf result Memory → self.new.faults ≡ self.old.faults }
        ensures count { self.old.faults ≤ self.new.faults }
    {
        // That a reader whose lines are told tells its bytes is known where a field is read.
        let _ = &self.reader;
        let outcome = self.take_line(most, into);
        if let Err(ReadRefusal::Failed) = outcome {
            self.faults = self.faults.saturating_add(1);
        }
        outcome
    }
}

/// What a piece was that a reader showed.
#[derive(Clone, Copy)]
enum Piece {
    /// Bytes of a line that may go on, or none where the read was interrupted.
    Part,
    /// The last bytes of a line.
    Line,
    /// The last bytes that are asked for, of a line that goes on.
    Cut,
    /// Nothing, since the reader has no more bytes.
    End,
}

impl Piece {
    /// Whether its line goes on behind the bytes that are asked for.
    fn is_cut(self) -> bool
        ensures { result ≡ is_cut self }
    {
        match self {
            Piece::Cut => true,
            Piece::Part | Piece::Line | Piece::End => false,
        }
    }
}

/// Takes what a reader shows at once of its next line, of which this was taken before. What ends the line, or
/// is as much of it as is asked for, is given with what was taken before.
fn take_piece<R: BufRead>(
    reader: &mut R,
    begun: &mut Vec<u8>,
    most: usize,
    into: &mut Vec<u8>,
) -> Result<Piece, ReadRefusal>
    requires one_line { All (λ byte. byte ≢ 10) begun.old.items }
    ensures one_line { All (λ byte. byte ≢ 10) begun.new.items }
    ensures taken { IfOk result (λ piece. ReadsPiece most
        (lines_left begun.old.items false (R.remaining reader.old))
        (lines_left begun.new.items (is_cut piece) (R.remaining reader.new))
        piece into.old.items into.new.items) }
    ensures none_begun { result ≡ Ok Cut → begun.new.items ≡ [] }
    ensures kept { OnErr result (BeginsWith into.old.items into.new.items) }
    ensures none_lost { OnErr result (KeepsLines
        (lines_left begun.old.items false (R.remaining reader.old))
        (lines_left begun.new.items false (R.remaining reader.new))) }
{
    let shown = match reader.fill_buf() {
        Ok(shown) => shown,
        Err(e) if e.kind() == ErrorKind::Interrupted => return Ok(Piece::Part),
        Err(_) => return Err(ReadRefusal::Failed),
    };
    if shown.is_empty() {
        return give_last(begun, most, into);
    }
    let count = line_length(shown, most.saturating_sub(begun.len()));
    match shown.get(count).copied() {
        Some(b'\n') => {
            give(begun, &shown[..count], most, into)?;
            reader.consume(count + 1);
            Ok(Piece::Line)
        }
        Some(_) => {
            give(begun, &shown[..count], most, into)?;
            reader.consume(count);
            Ok(Piece::Cut)
        }
        None => {
            begun.extend_from_slice(&shown[..count])?;
            reader.consume(count);
            Ok(Piece::Part)
        }
    }
}

/// Gives what was taken of the last line, where a reader has no more bytes.
fn give_last(begun: &mut Vec<u8>, most: usize, into: &mut Vec<u8>) -> Result<Piece, ReadRefusal>
    requires one_line { All (λ byte. byte ≢ 10) begun.old.items }
    ensures one_line { All (λ byte. byte ≢ 10) begun.new.items }
    ensures taken { IfOk result (λ piece. ReadsPiece most
        (lines_left begun.old.items false (Some [])) (lines_left begun.new.items (is_cut piece) (Some []))
        piece into.old.items into.new.items) }
    ensures none_begun { result ≡ Ok Cut → begun.new.items ≡ [] }
    ensures kept { OnErr result (BeginsWith into.old.items into.new.items) }
    ensures none_lost { OnErr result (begun.new.items ≡ begun.old.items) }
{
    if begun.is_empty() {
        return Ok(Piece::End);
    }
    give(begun, &[], most, into)?;
    Ok(Piece::Line)
}

/// Gives a line: the first `most` bytes of what was taken of it before, and behind them this piece.
fn give(
    begun: &mut Vec<u8>,
    piece: &[u8],
    most: usize,
    into: &mut Vec<u8>,
) -> Result<(), ReadRefusal>
    ensures given { OnOk result
        (into.new.items ≡ into.old.items ++ (take most begun.old.items ++ piece.now)) }
    ensures none_begun { OnOk result (begun.new.items ≡ []) }
    ensures kept { OnErr result (BeginsWith into.old.items into.new.items) }
    ensures none_lost { OnErr result (begun.new.items ≡ begun.old.items) }
{
    into.extend_from_slice(&begun[..begun.len().min(most)])?;
    into.extend_from_slice(piece)?;
    begun.clear();
    Ok(())
}

/// Passes over what a reader shows at once of a line. Answers whether the line has ended: its line feed is
/// then passed over too, or the reader has no more bytes.
fn pass_over<R: BufRead>(reader: &mut R) -> Result<bool, ReadRefusal>
    ensures passed { IfOk result (λ has_ended. KeepsLines
        (lines_left [] true (R.remaining reader.old))
        (lines_left [] (not has_ended) (R.remaining reader.new))) }
    ensures none_lost { OnErr result (KeepsLines
        (lines_left [] true (R.remaining reader.old)) (lines_left [] true (R.remaining reader.new))) }
{
    let shown = match reader.fill_buf() {
        Ok(shown) => shown,
        Err(e) if e.kind() == ErrorKind::Interrupted => return Ok(false),
        Err(_) => return Err(ReadRefusal::Failed),
    };
    if shown.is_empty() {
        return Ok(true);
    }
    let count = line_length(shown, shown.len());
    if count < shown.len() {
        reader.consume(count + 1);
        return Ok(true);
    }
    reader.consume(count);
    Ok(false)
}
