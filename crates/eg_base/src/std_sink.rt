// A stream of the system as an output.
ghost use Rattle.std.specs.Prelude.{◌≡◌, ◌≤◌, None, true, false, IsSome, OnOk, OnErr, IfOk, IsOkUnless, [], length, take};
ghost use Rattle.std.specs.Io.KnownBytes.{Appends};
ghost use Rattle.eg_base.specs.declared.sink.PutRefusal.TheVariants.{Failed};
ghost use Rattle.eg_base.specs.Counts.{next_count};
ghost use Rattle.eg_base.specs.Outside.{Appends as ShowsAppended, AppendsPrefix};
ghost use Rattle.eg_base.specs.Streams.{TakesPrefix, shown_by};

use crate::{PutRefusal, Sink};
use std::io::{ErrorKind, Write};
use std::marker::Model;

/// An output to a stream. What was written is told where `told` made the output, of a stream that tells its
/// bytes. No contract can tell those of a stream of the system, such as standard output: `new` makes an
/// output to it. Either output is sure.
///
/// Each refusal of the stream to write or to flush is a fault, as is a write that takes nothing of a piece
/// that isn't empty. A write that is interrupted is made again. Contracts see a `StreamState`: the stream,
/// whether its bytes are told, and the count of faults.
#[derive(Drop)]
pub struct StdSink<W: Write + Drop> {
    stream: W,
    is_told: bool,
    faults: u64,
}

impl<W: Write + Drop> Model for StdSink<W> {
    ghost use Rattle.std.specs.Prelude.{IsTrue, IsSome};
    ghost use Rattle.eg_base.specs.Streams.{StreamState};

    ghost Value = { StreamState W };

    ghost view = { λ s. record { stream = s.stream; is_told = s.is_told; faults = s.faults } };

    ghost invariant = { λ s. IsTrue s.is_told → IsSome (W.contents s.stream) };
}

impl<W: Write + Drop> StdSink<W> {
    /// An output to this stream, of which nothing is told.
    pub fn new(stream: W) -> StdSink<W>
        ensures state { result ≡ record { stream = stream; is_told = false; faults = 0 } }
        ensures shown { ⟦<StdSink<W> as Sink>⟧.shows result
            ≡ record { written = None; faults = 0; sure = true } }
    {
        StdSink {
            stream,
            is_told: false,
            faults: 0,
        }
    }

    /// An output to this stream, which tells its bytes, as a vector does.
    ///
    /// Claim 72 (`shown`).
    pub fn told(stream: W) -> StdSink<W>
        requires { IsSome (W.contents stream) }
        ensures state { result ≡ record { stream = stream; is_told = true; faults = 0 } }
        ensures shown { ⟦<StdSink<W> as Sink>⟧.shows result
            ≡ record { written = W.contents stream; faults = 0; sure = true } }
    {
        StdSink {
            stream,
            is_told: true,
            faults: 0,
        }
    }
}

impl<W: Write + Drop> Sink for StdSink<W> {
    ghost shows = { shown_by W.contents };

    /// Writes these bytes to the stream and flushes it.
    #[tactic(auto, using(crate::proofs::StreamLemmas::told))]
    fn put(&mut self, bytes: &[u8]) -> Result<(), PutRefusal>
        // Where the stream tells its bytes, it holds these at their end, or a prefix of them where they are
        // refused.
        ensures taken { OnOk result
            (Appends (W.contents self.old.stream) (W.contents self.new.stream) bytes.now) }
        ensures part { OnErr result
            (TakesPrefix (W.contents self.old.stream) (W.contents self.new.stream) bytes.now) }

        // The trait's clauses, by what the output shows.
        ensures told { self.new.is_told ≡ self.old.is_told }
        ensures ok { OnOk result
            (ShowsAppended (shown_by W.contents self.old) (shown_by W.contents self.new) bytes.now) }
        ensures prefix { OnErr result
            (AppendsPrefix (shown_by W.contents self.old) (shown_by W.contents self.new) bytes.now) }

        // Each refusal is a fault, and nothing else is.
        ensures failed { IsOkUnless result Failed }
        ensures no_fault { OnOk result (self.new.faults ≡ self.old.faults) }
        ensures fault { OnErr result (self.new.faults ≡ next_count self.old.faults) }
        ensures count { self.old.faults ≤ self.new.faults }
    {
        let outcome = write_through(&mut self.stream, bytes);
        if outcome.is_err() {
            self.faults = self.faults.saturating_add(1);
        }
        outcome
    }
}

/// Writes all of these bytes, and flushes the stream.
#[tactic(auto, using(crate::proofs::StreamLemmas::taken))]
fn write_through<W: Write>(stream: &mut W, bytes: &[u8]) -> Result<(), PutRefusal>
    ensures refused { IsOkUnless result Failed }
    ensures whole { OnOk result (Appends (W.contents stream.old) (W.contents stream.new) bytes.now) }
    ensures part { OnErr result (TakesPrefix (W.contents stream.old) (W.contents stream.new) bytes.now) }
{
    write_whole(stream, bytes)?;
    stream.flush().map_err(|_| PutRefusal::Failed)
}

/// Writes all of these bytes. std says nothing of what a refused `write_all` took, so the loop over `write`
/// stands here.
#[tactic(auto, using(crate::proofs::StreamLemmas::taken))]
fn write_whole<W: Write>(stream: &mut W, bytes: &[u8]) -> Result<(), PutRefusal>
    ensures refused { IsOkUnless result Failed }
    ensures whole { OnOk result (Appends (W.contents stream.old) (W.contents stream.new) bytes.now) }
    ensures part { OnErr result (TakesPrefix (W.contents stream.old) (W.contents stream.new) bytes.now) }
{
    let mut taken = 0;
    for _ in 0..u64::MAX {
        if taken == bytes.len() {
            return Ok(());
        }
        taken += write_once(stream, &bytes[taken..])?;
    }
    Err(PutRefusal::Failed)
}

/// Writes as many of these bytes as the stream takes at once, and tells how many: none where the write is
/// interrupted. A stream that takes none though it wasn't interrupted has failed.
fn write_once<W: Write>(stream: &mut W, bytes: &[u8]) -> Result<usize, PutRefusal>
    ensures refused { IsOkUnless result Failed }
    ensures most { IfOk result (λ count. count ≤ length bytes.now) }
    ensures taken { IfOk result
        (λ count. Appends (W.contents stream.old) (W.contents stream.new) (take count bytes.now)) }
    ensures kept { OnErr result (Appends (W.contents stream.old) (W.contents stream.new) []) }
{
    match stream.write(bytes) {
        Ok(0) => Err(PutRefusal::Failed),
        Ok(count) => Ok(count),
        Err(e) if e.kind() == ErrorKind::Interrupted => Ok(0),
        Err(_) => Err(PutRefusal::Failed),
    }
}
