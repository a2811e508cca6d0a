// The record of a run, written as its ticks are made.
ghost use Rattle.std.specs.Prelude.{◌≡◌, reverse, OnOk, OnErr, IsErrOf, IsTrue};
ghost use Rattle.eg_base.specs.Outside.{Rose, Appends, AppendsPrefix};
ghost use Rattle.eg_record.specs.Texts.{row_line};
ghost use Rattle.eg_model.specs.Rows.{record_rows};
ghost use Rattle.eg_plan.specs.Playable.{IsPlayable};
ghost use Rattle.eg_campaign.specs.Plays.{run_with};
ghost use Rattle.eg_campaign.specs.Recording.{WritesRecord};
ghost use Rattle.eg_campaign.specs.declared.recording.RecordStop.TheVariants.{Memory, Put};

use crate::counting::count_none;
use eg_base::{PutRefusal, Sink};
use eg_plan::RunInput;
use eg_record::{ROW_ROOM, Row, put_row_line, record_header};
use eg_tick::{BenchedEngine, Ticks, bench_controller, bench_row};
use eg_values::Calibration;

/// Why the writing of a record was stopped (docs/CONCEPT.md, "The record of a run").
#[derive(Clone, Copy)]
pub enum RecordStop {
    /// Memory ran out.
    Memory,
    /// Writing failed: the output has counted a fault.
    Put,
}

/// Does what `record_into` does, with an engine of this type, whichever the run names.
pub(crate) fn record_on<E: BenchedEngine, K: Sink>(
    calibration: &Calibration,
    input: &RunInput,
    out: &mut K,
    steps: &mut Ticks,
) -> Result<(), RecordStop>
    requires { IsPlayable input.now }
    ensures { WritesRecord (reverse (record_rows E.bench (run_with calibration.now input.now).run))
        (K.shows out.old) (K.shows out.new) steps.old steps.new result }
{
    // Called for its clause alone.
    count_none(steps);
    let (image, drive) = (input.image.as_slice(), input.drive.as_slice());
    let (plan, fault) = (&input.plan.slices, input.plan.fault.as_ref());
    let mut line = [0; ROW_ROOM];
    put_whole(record_header().as_bytes(), out)?;
    let mut controller = bench_controller::<E>(calibration, image, fault);
    for tick in 0..drive.len() {
        let row = bench_row(&mut controller, plan, &drive[tick], tick as u32, steps);
        put_row(&mut line, &row, out)?;
    }
    Ok(())
}

/// Puts the line of a row. The line is made in this array, whatever it held before.
fn put_row<K: Sink>(line: &mut [u8; ROW_ROOM], row: &Row, out: &mut K) -> Result<(), RecordStop>
    ensures ok { OnOk result (Appends (K.shows out.old) (K.shows out.new) (row_line row.now)) }
    ensures prefix { OnErr result (AppendsPrefix (K.shows out.old) (K.shows out.new) (row_line row.now)) }
    ensures no_fault { OnOk result ((K.shows out.new).faults ≡ (K.shows out.old).faults) }
    ensures cause { IsErrOf result Put → Rose (K.shows out.old).faults (K.shows out.new).faults }
    ensures memory { IsErrOf result Memory → (K.shows out.new).faults ≡ (K.shows out.old).faults }
    ensures sure { IsTrue (K.shows out.old).sure → ¬ IsErrOf result Memory }
    ensures stays_sure { (K.shows out.new).sure ≡ (K.shows out.old).sure }
{
    let start = put_row_line(row, line);
    put_whole(&line[start..], out)
}

/// Puts these bytes in one piece.
fn put_whole<K: Sink>(bytes: &[u8], out: &mut K) -> Result<(), RecordStop>
    ensures ok { OnOk result (Appends (K.shows out.old) (K.shows out.new) bytes.now) }
    ensures prefix { OnErr result (AppendsPrefix (K.shows out.old) (K.shows out.new) bytes.now) }
    ensures no_fault { OnOk result ((K.shows out.new).faults ≡ (K.shows out.old).faults) }
    ensures cause { IsErrOf result Put → Rose (K.shows out.old).faults (K.shows out.new).faults }
    ensures memory { IsErrOf result Memory → (K.shows out.new).faults ≡ (K.shows out.old).faults }
    ensures sure { IsTrue (K.shows out.old).sure → ¬ IsErrOf result Memory }
    ensures stays_sure { (K.shows out.new).sure ≡ (K.shows out.old).sure }
{
    match out.put(bytes) {
        Ok(()) => Ok(()),
        Err(PutRefusal::Failed) => Err(RecordStop::Put),
        Err(PutRefusal::Memory) => Err(RecordStop::Memory),
    }
}
