// `replay` and `signals`: level 2 over lines that come one by one.
ghost use Rattle.std.specs.Prelude.{◌≡◌, ◌==◌, Ok, Err, if◌then◌else◌};
ghost use Rattle.eg_input.specs.declared.fault.TraceFault.TheVariants.{Empty};
ghost use Rattle.eg_outcome.specs.Changes.{change_of};
ghost use Rattle.eg_outcome.specs.Lines.{LinePut, end_of};
ghost use Rattle.eg_outcome.specs.Outcomes.{TellsNoMemory, PutsNothing};
ghost use Rattle.eg_outcome.specs.declared.outcome.Outcome.TheVariants.{Refused};
ghost use Rattle.eg_outcome.specs.declared.outcome.Refusal.TheVariants.{Check};
ghost use Rattle.eg_replay.specs.Texts.{signals_line, replay_text};
ghost use Rattle.eg_stream.specs.Recordings.{RecordingEnds, signals_work, replay_work};
ghost use Rattle.eg_stream.specs.Inner.Reading.{FindingsCome};

use crate::recording::Recording;
use eg_base::{NoMemory, Sink};
use eg_input::TraceFault;
use eg_lines::Lines;
use eg_outcome::{Outcome, Refusal, put_or_end, put_text};
use eg_replay::{Findings, Replay, Tally, TickSignals, push_signals, replay_text, signals_header};
use eg_values::Calibration;
use std::alloc::Global;

/// How many lines below the header are read at the most. Behind them memory is said to have run out.
const MOST_TICKS: u32 = u32::MAX - 1;

/// Does `signals` by a calibration that was read (docs/FORMATS.md, "Commands"): reads lines to their end, and
/// writes the row of each before it reads the next.
#[inline(never)]
pub fn signals_lines<L: Lines, K: Sink>(
    alloc: Global,
    calibration: &Calibration,
    lines: &mut L,
    out: &mut K,
) -> Outcome
    ensures ends { RecordingEnds (signals_work calibration.now) (change_of L.shows lines.old lines.new)
        (change_of K.shows out.old out.new) result }
    ensures no_memory { TellsNoMemory result }
{
    eg_outcome::end_of(put_signals(alloc, calibration, lines, out))
}

/// Does `replay` by a calibration that was read (docs/FORMATS.md, "Commands"): reads lines to their end, and
/// then writes what level 2 finds on them.
#[inline(never)]
pub fn replay_lines<L: Lines, K: Sink>(
    alloc: Global,
    calibration: &Calibration,
    lines: &mut L,
    out: &mut K,
) -> Outcome
    ensures ends { RecordingEnds (replay_work calibration.now) (change_of L.shows lines.old lines.new)
        (change_of K.shows out.old out.new) result }
    ensures no_memory { TellsNoMemory result }
    ensures nothing_put { PutsNothing result → out.new ≡ out.old }
{
    eg_outcome::end_of(put_replay(alloc, calibration, lines, out))
}

/// The rows of lines that come, each put before the next line is read.
fn put_signals<L: Lines, K: Sink>(
    alloc: Global,
    calibration: &Calibration,
    lines: &mut L,
    out: &mut K,
) -> Result<(), Outcome>
    ensures { RecordingEnds (signals_work calibration.now) (change_of L.shows lines.old lines.new)
        (change_of K.shows out.old out.new) (end_of result) }
{
    let mut recording = Recording::begin(alloc, lines)?;
    put_or_end(signals_header().as_bytes(), out)?;
    let mut replay = Replay::new(calibration);
    let mut row = Vec::new(alloc);
    for tick in 0..MOST_TICKS {
        let Some(recorded) = recording.next(tick, lines)? else {
            return unless_empty(tick, ());
        };
        put_row(&mut row, tick, &replay.feed(&recorded), out)?;
    }
    Err(Outcome::Memory)
}

/// Puts the row of a tick, which is made in this buffer.
fn put_row<K: Sink>(
    row: &mut Vec<u8>,
    tick: u32,
    told: &TickSignals,
    out: &mut K,
) -> Result<(), Outcome>
    ensures { LinePut (signals_line tick told.now) (change_of K.shows out.old out.new) result }
{
    row.clear();
    match push_signals(row, tick, told) {
        Ok(()) => put_or_end(row, out),
        Err(NoMemory) => Err(Outcome::Memory),
    }
}

/// What all lines come to, or the fault Empty where they are no ticks.
fn unless_empty<T: Copy>(ticks: u32, whole: T) -> Result<T, Outcome>
    ensures { result ≡ if ticks == 0 then Err (Refused (Check Empty)) else Ok whole }
{
    if ticks == 0 {
        return Err(Outcome::Refused(Refusal::Check(TraceFault::Empty)));
    }
    Ok(whole)
}

/// What level 2 finds on lines that come, put behind the last.
fn put_replay<L: Lines, K: Sink>(
    alloc: Global,
    calibration: &Calibration,
    lines: &mut L,
    out: &mut K,
) -> Result<(), Outcome>
    ensures ends { RecordingEnds (replay_work calibration.now) (change_of L.shows lines.old lines.new)
        (change_of K.shows out.old out.new) (end_of result) }
    ensures nothing_put { PutsNothing (end_of result) → out.new ≡ out.old }
{
    let findings = find(alloc, calibration, lines)?;
    put_findings(alloc, calibration, &findings, out)
}

/// Puts the lines on these findings.
fn put_findings<K: Sink>(
    alloc: Global,
    calibration: &Calibration,
    findings: &Findings,
    out: &mut K,
) -> Result<(), Outcome>
    ensures { LinePut (replay_text calibration.now.rules.pair calibration.now.rules.torque findings.now)
        (change_of K.shows out.old out.new) result }
{
    let rules = calibration.rules();
    match replay_text(alloc, &rules.pair, &rules.torque, findings) {
        Ok(text) => match put_text(text.as_bytes(), out) {
            Outcome::Done => Ok(()),
            end => Err(end),
        },
        Err(NoMemory) => Err(Outcome::Memory),
    }
}

/// What level 2 finds on lines that come.
fn find<L: Lines>(
    alloc: Global,
    calibration: &Calibration,
    lines: &mut L,
) -> Result<Findings, Outcome>
    ensures { FindingsCome calibration.now (change_of L.shows lines.old lines.new) result }
{
    let mut recording = Recording::begin(alloc, lines)?;
    let mut replay = Replay::new(calibration);
    let mut tally = Tally::new();
    for tick in 0..MOST_TICKS {
        let Some(recorded) = recording.next(tick, lines)? else {
            return unless_empty(tick, tally.findings());
        };
        tally.feed(&replay.feed(&recorded));
    }
    Err(Outcome::Memory)
}
