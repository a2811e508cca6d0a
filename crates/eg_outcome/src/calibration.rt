// The calibration that a command uses.
ghost use Rattle.std.specs.Prelude.{◌≡◌, ◌↔◌, Err, IfErr, IsTrue, None};
ghost use Rattle.std.specs.Option.{option_copied};
ghost use Rattle.eg_cal.specs.declared.key.CalFault.TheVariants.{Memory};
ghost use Rattle.eg_outcome.specs.Changes.{change_of};
ghost use Rattle.eg_outcome.specs.Reads.{KeepsFiles, ReadsFile, Says, refused};
ghost use Rattle.eg_outcome.specs.Calibrations.{calibration_end, calibration_said, calibration_or_refusal, calibration_file, CalibrationComes, MissesCalibration};
ghost use Rattle.eg_outcome.specs.Outcomes.{TellsNoMemory};
ghost use Rattle.eg_outcome.specs.declared.outcome.Outcome.TheVariants.{ReadFault};
ghost use Rattle.eg_outcome.specs.declared.outcome.Role.TheVariants as role;

use crate::{Outcome, Refusal, Role, file_bytes};
use eg_base::Store;
use eg_cal::{CalFault, read_calibration};
use eg_values::{Calibration, reference};
use std::alloc::Global;

/// The calibration in the file of that name, or the reference calibration where no file is named
/// (docs/FORMATS.md, "Commands"). Where there is none, the call ends with the outcome that it answers.
pub fn calibration_for<S: Store>(
    alloc: Global,
    file: Option<&str>,
    store: &mut S,
) -> Result<Calibration, Outcome>
    ensures comes { CalibrationComes (option_copied file.entry)
        (change_of S.shows store.old store.new) result }
    ensures missing { IsTrue (S.shows store.old).sure → ((result ≡ Err (ReadFault role.Calibration))
        ↔ MissesCalibration (option_copied file.entry) (S.shows store.old)) }
    ensures no_memory { IfErr result TellsNoMemory }

    // What stays as it was.
    ensures unread { option_copied file.entry ≡ None → store.new ≡ store.old }
    ensures keeps { KeepsFiles (change_of S.shows store.old store.new) result }
{
    match file {
        Some(file) => calibration_of(alloc, file, store),
        None => Ok(reference()),
    }
}

/// The calibration in the file of that name, or how the call ends without one.
fn calibration_of<S: Store>(
    alloc: Global,
    file: &str,
    store: &mut S,
) -> Result<Calibration, Outcome>
    ensures reads { ReadsFile role.Calibration calibration_file file.now
        (change_of S.shows store.old store.new) result }
    ensures keeps { KeepsFiles (change_of S.shows store.old store.new) result }
{
    match file_bytes(alloc, Role::Calibration, file, store) {
        Ok(bytes) => calibration_in(alloc, bytes.as_slice()),
        Err(end) => Err(end),
    }
}

/// The calibration that these bytes of a file say, or how the call ends without one.
#[tactic(auto, unfolding(crate::specs::Calibrations::calibration_said))]
fn calibration_in(alloc: Global, bytes: &[u8]) -> Result<Calibration, Outcome>
    ensures { Says calibration_or_refusal bytes.now result }
{
    hand_on(read_calibration(alloc, bytes))
}

/// What a reader of a calibration file says, with a fault as how the call ends: Memory comes only where the
/// reader says so (docs/FORMATS.md, "Outcomes").
pub fn hand_on<T>(said: Result<T, CalFault>) -> Result<T, Outcome>
    ensures { result ≡ refused calibration_end said }
{
    match said {
        Ok(value) => Ok(value),
        Err(CalFault::Memory) => Err(Outcome::Memory),
        Err(fault) => Err(Outcome::Refused(Refusal::Calibration(fault))),
    }
}
