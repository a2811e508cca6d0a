// An output over a stream that takes little, or refuses to flush, and one over a vector.
use eg_base::{Sink, StdSink};
use std::io::{self, ErrorKind, Write};

/// Takes three bytes at a time at most, nothing once its room is used up, and may refuse to flush.
#[derive(Drop)]
struct Narrow {
    room: usize,
    flushes: bool,
}

impl Write for Narrow {
    fn write(&mut self, buf: &[u8]) -> io::Result<usize> {
        let count = buf.len().min(self.room).min(3);
        self.room -= count;
        Ok(count)
    }

    fn flush(&mut self) -> io::Result<()> {
        if self.flushes {
            Ok(())
        } else {
            Err(io::Error::from(ErrorKind::BrokenPipe))
        }
    }
}

/// Puts seven bytes to a narrow stream with this much room. Gives whether they are taken, and the room left.
fn put_seven(room: usize, flushes: bool) -> (bool, usize) {
    let mut stream = Narrow { room, flushes };
    let taken = StdSink::new(&mut stream).put(b"0123456").is_ok();
    (taken, stream.room)
}

#[test]
fn each_refusal_of_a_stream_is_told(rt: HostRuntime) {
    assert!(rt; put_seven(8, true) == (true, 1));
    assert!(rt; put_seven(5, true) == (false, 0));
    assert!(rt; put_seven(8, false) == (false, 1));
}

#[test]
fn a_vector_holds_what_is_put(rt: HostRuntime) {
    let mut bytes = Vec::new(rt.alloc());
    let mut out = StdSink::told(&mut bytes);
    assert!(rt; out.put(b"ab").is_ok() && out.put(b"c").is_ok());
    drop(out);
    assert!(rt; bytes.as_slice() == b"abc".as_slice());
}
