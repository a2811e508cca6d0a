// What may be relied on of lines that come one by one.
ghost use Rattle.eg_values.specs.Calibration.{CalibrationParts};
ghost use Rattle.eg_stream.specs.Coupled.{CoupledUnit};
ghost use Rattle.eg_stream.specs.Couplings.{couple_work};
ghost use Rattle.eg_stream.specs.Recordings.{replay_work, signals_work};
ghost use Rattle.eg_stream.specs.Streams.{BytesLeadToBytes, ReadsNoLineAhead};

/// Does nothing when it runs. Its clauses are a law of how the commands over lines end (docs/FORMATS.md, "The
/// rows of `signals`", "The lines of `couple`"). `replay` keeps it too, and writes nothing before the last
/// line.
///
/// Claim 53 (F33, F35): `signals` and `couple` read no line before the rows of the lines before it have been
/// put.
pub fn no_line_is_read_ahead()
    ensures signals { (cal : CalibrationParts) → ReadsNoLineAhead (signals_work cal) }
    ensures replay { (cal : CalibrationParts) → ReadsNoLineAhead (replay_work cal) }
    ensures couple { (unit : CoupledUnit) → ReadsNoLineAhead (couple_work unit) }
{}

/// Does nothing when it runs. Its clauses are a law of how the commands over lines end Done, from bytes to
/// bytes, over a reader and a stream that tell their bytes (`eg_lines::LateLines::new`,
/// `eg_base::StdSink::told`).
///
/// Claim 72 (F32, F33, F35): If the reader and the stream of `replay`, `signals` or `couple` tell their
/// bytes, then on Done the stream has got exactly the text of the lines that the reader had left, behind
/// what it held.
pub fn bytes_lead_to_bytes()
    ensures signals { (cal : CalibrationParts) → BytesLeadToBytes (signals_work cal) }
    ensures replay { (cal : CalibrationParts) → BytesLeadToBytes (replay_work cal) }
    ensures couple { (unit : CoupledUnit) → BytesLeadToBytes (couple_work unit) }
{}
