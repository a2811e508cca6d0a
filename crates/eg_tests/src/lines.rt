// The lines of readers that give little at once or fail, and of the two sources in memory.
use eg_base::ReadRefusal;
use eg_lines::{Lines, MemoryLines, ReadLines, SureLines};
use std::alloc::Global;
use std::io::{self, BufReader, ErrorKind, Read};

/// Gives its pieces, one a read, and counts the reads. At an empty piece the read is interrupted, and at one
/// that only holds a zero the read fails.
#[derive(Drop)]
struct Pieces {
    pieces: &'static [&'static [u8]],
    reads: usize,
}

const WHOLE: &[&[u8]] = &[
    b"first\n",
    b"",
    b"sec",
    b"ond\r\nthird\n\nf",
    b"if",
    b"",
    b"th",
];

const BROKEN: &[&[u8]] = &[b"on", b"\0", b"e\ntw", b"\0", b"o"];

impl Read for Pieces {
    fn read(&mut self, buf: &mut [u8]) -> io::Result<usize> {
        let number = self.reads;
        self.reads = number.saturating_add(1);
        let Some(piece) = self.pieces.get(number) else {
            return Ok(0);
        };
        match piece.first() {
            None => return Err(io::Error::from(ErrorKind::Interrupted)),
            Some(0) => return Err(io::Error::from(ErrorKind::BrokenPipe)),
            Some(_) => {}
        }
        let count = piece.len().min(buf.len());
        buf[..count].copy_from_slice(&piece[..count]);
        Ok(count)
    }
}

/// The lines of a reader of these pieces.
fn read_by(
    alloc: Global,
    pieces: &'static [&'static [u8]],
) -> io::Result<ReadLines<BufReader<Pieces>>> {
    let reader = BufReader::new(alloc, Pieces { pieces, reads: 0 })?;
    Ok(ReadLines::new(alloc, reader))
}

/// Whether the next line, cut to `most` bytes, is this one.
fn next_is<L: Lines>(alloc: Global, lines: &mut L, most: usize, line: &[u8]) -> bool {
    let mut buffer = Vec::new(alloc);
    lines.next(most, &mut buffer) == Ok(true) && buffer.as_slice() == line
}

/// Whether there is no next line.
fn has_ended<L: Lines>(alloc: Global, lines: &mut L) -> bool {
    let mut buffer = Vec::new(alloc);
    lines.next(9, &mut buffer) == Ok(false) && buffer.is_empty()
}

/// Whether the next read fails, and the buffer keeps what it held.
fn next_fails<L: Lines>(alloc: Global, lines: &mut L) -> bool {
    let mut buffer = Vec::new(alloc);
    buffer.push(b'x').is_ok()
        && lines.next(9, &mut buffer) == Err(ReadRefusal::Failed)
        && buffer.first() == Some(&b'x')
}

/// How many reads so many lines take.
fn reads_for(alloc: Global, count: usize) -> io::Result<usize> {
    let mut pieces = Pieces {
        pieces: WHOLE,
        reads: 0,
    };
    let mut lines = ReadLines::new(alloc, BufReader::new(alloc, &mut pieces)?);
    for _ in 0..count {
        let mut buffer = Vec::new(alloc);
        if lines.next(9, &mut buffer).is_err() {
            return Ok(0);
        }
    }
    drop(lines);
    Ok(pieces.reads)
}

#[test]
fn the_pieces_of_a_line_are_put_together(rt: HostRuntime) -> io::Result<()> {
    let alloc = rt.alloc();
    let mut lines = read_by(alloc, WHOLE)?;
    assert!(rt; next_is(alloc, &mut lines, 9, b"first"));
    assert!(rt; next_is(alloc, &mut lines, 9, b"second\r"));
    assert!(rt; next_is(alloc, &mut lines, 5, b"third"));
    assert!(rt; next_is(alloc, &mut lines, 9, b""));
    assert!(rt; next_is(alloc, &mut lines, 9, b"fifth"));
    assert!(rt; has_ended(alloc, &mut lines) && has_ended(alloc, &mut lines));
    Ok(())
}

#[test]
fn nothing_is_read_behind_a_line(rt: HostRuntime) -> io::Result<()> {
    let alloc = rt.alloc();
    assert!(rt; reads_for(alloc, 1)? == 1);
    assert!(rt; reads_for(alloc, 2)? == 4);
    assert!(rt; reads_for(alloc, 4)? == 4);
    assert!(rt; reads_for(alloc, 5)? == 8);
    Ok(())
}

#[test]
fn a_sure_source_gives_the_lines_of_its_text(rt: HostRuntime) -> io::Result<()> {
    let alloc = rt.alloc();
    let mut lines = SureLines::new(b"one\r\n\nthree".to_vec(alloc)?);
    assert!(rt; next_is(alloc, &mut lines, 9, b"one\r"));
    assert!(rt; next_is(alloc, &mut lines, 9, b""));
    assert!(rt; next_is(alloc, &mut lines, 2, b"th"));
    assert!(rt; has_ended(alloc, &mut lines));
    assert!(rt; has_ended(alloc, &mut SureLines::new(Vec::new(alloc))));
    Ok(())
}

/// Whether a source of three lines gives so much of each as is asked for, and passes over the rest.
fn passes_over<L: Lines>(alloc: Global, lines: &mut L) -> bool {
    next_is(alloc, lines, 2, b"on")
        && next_is(alloc, lines, 3, b"two")
        && next_is(alloc, lines, 0, b"")
        && has_ended(alloc, lines)
}

#[test]
fn the_rest_of_a_cut_line_is_passed_over_by_each_source(rt: HostRuntime) -> io::Result<()> {
    let alloc = rt.alloc();
    let text = b"one\ntwo\nthree".as_slice();
    assert!(rt; passes_over(alloc, &mut MemoryLines::new(text.to_vec(alloc)?)));
    assert!(rt; passes_over(alloc, &mut SureLines::new(text.to_vec(alloc)?)));
    assert!(rt; passes_over(alloc, &mut ReadLines::new(alloc, text)));
    assert!(rt; passes_over(alloc, &mut ReadLines::told(alloc, text)));
    let mut lines = read_by(alloc, WHOLE)?;
    assert!(rt; next_is(alloc, &mut lines, 3, b"fir"));
    assert!(rt; next_is(alloc, &mut lines, 2, b"se"));
    assert!(rt; next_is(alloc, &mut lines, 9, b"third"));
    assert!(rt; next_is(alloc, &mut lines, 9, b""));
    assert!(rt; next_is(alloc, &mut lines, 1, b"f"));
    assert!(rt; has_ended(alloc, &mut lines));
    Ok(())
}

#[test]
fn a_read_that_fails_loses_no_line(rt: HostRuntime) -> io::Result<()> {
    let alloc = rt.alloc();
    let mut lines = MemoryLines::new(b"one\ntwo\n".to_vec(alloc)?);
    lines.fail_at(1);
    assert!(rt; next_is(alloc, &mut lines, 9, b"one"));
    assert!(rt; next_fails(alloc, &mut lines));
    assert!(rt; next_is(alloc, &mut lines, 9, b"two"));
    assert!(rt; has_ended(alloc, &mut lines));
    let mut broken = read_by(alloc, BROKEN)?;
    assert!(rt; next_fails(alloc, &mut broken));
    assert!(rt; next_is(alloc, &mut broken, 9, b"one"));
    assert!(rt; next_fails(alloc, &mut broken));
    assert!(rt; next_is(alloc, &mut broken, 9, b"two"));
    assert!(rt; has_ended(alloc, &mut broken));
    Ok(())
}

#[test]
fn a_read_that_fails_within_a_cut_line_loses_no_line(rt: HostRuntime) -> io::Result<()> {
    let alloc = rt.alloc();
    let mut broken = read_by(alloc, BROKEN)?;
    assert!(rt; next_is(alloc, &mut broken, 1, b"o"));
    assert!(rt; next_fails(alloc, &mut broken));
    assert!(rt; next_fails(alloc, &mut broken));
    assert!(rt; next_is(alloc, &mut broken, 9, b"two"));
    assert!(rt; has_ended(alloc, &mut broken));
    Ok(())
}
