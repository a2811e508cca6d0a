// The files of one run.
ghost use Rattle.std.specs.Prelude.{◌≡◌, ◌+◌, ◌≤◌, All, [], length, Err, IfErr, IfOk, IsOk, None};
ghost use Rattle.std.specs.Option.{ForSome, MatchOption};
ghost use Rattle.eg_num.specs.Drive.{IsDrive};
ghost use Rattle.eg_fault.specs.Faults.{IsNoneOrValid};
ghost use Rattle.eg_plan.specs.Playable.{IsPlayable};
ghost use Rattle.eg_input.specs.declared.image.TheConstants.{MOST_WORDS};
ghost use Rattle.eg_outcome.specs.Changes.{change_of};
ghost use Rattle.eg_outcome.specs.Reads.{KeepsFiles, ReadsFile, Says};
ghost use Rattle.eg_outcome.specs.Outcomes.{TellsNoMemory};
ghost use Rattle.eg_outcome.specs.declared.outcome.Outcome.TheVariants.{Refused};
ghost use Rattle.eg_outcome.specs.declared.outcome.Role.TheVariants as role;
ghost use Rattle.eg_outcome.specs.Images.{image_file};
ghost use Rattle.eg_outcome.specs.Campaigns.{trace_file, trace_or_refusal};
ghost use Rattle.eg_outcome.specs.Inputs.{InputComes, ImageComes, refusing, outcomes};
ghost use Rattle.eg_outcome.specs.Roles.{role_in};
ghost use Rattle.eg_outcome.specs.Runs.{IsOf, name_by};

use crate::traces::Traces;
use crate::{End, Outcome, Refusal, Role, file_bytes, image_in};
use eg_base::{Items, Store};
use eg_input::TraceFault;
use eg_num::Drive;
use eg_plan::{RunInput, RunPlan, SharedItems, add_ticks};
use std::alloc::Global;

/// The input of a run, the first run being 1: its trace is read, and then its image. `sum`, where it is
/// given, is how many ticks the runs before have; where this run's ticks take it above 1,000,000, the run is
/// refused before its image is read (docs/FORMATS.md, "Campaign files"). `traces` are those of the runs
/// before, with which it may share its drive.
pub(crate) fn input_for<S: Store>(
    alloc: Global,
    run: u32,
    sum: Option<u32>,
    plan: RunPlan,
    traces: &mut Traces,
    store: &mut S,
) -> Result<RunInput, End>
    requires sum { ForSome sum (λ n. n ≤ 1000000) }
    requires fault { IsNoneOrValid plan.fault }
    ensures comes { InputComes (refusing sum run) (change_of S.shows store.old store.new) run plan
        (outcomes result) }
    ensures playable { IfOk result IsPlayable }
    ensures sum { IfOk result (λ input. ForSome sum (λ n. n + length input.drive ≤ 1000000)) }
    ensures named { IfErr result (λ end. (end.file ≡ name_by plan (role_in end.outcome))
        × IsOf run (role_in end.outcome)) }
    ensures no_memory { IfErr result (λ end. TellsNoMemory end.outcome) }
    ensures keeps { KeepsFiles (change_of S.shows store.old store.new) result }
{
    let drive = match drive_for(alloc, run, plan.trace.as_str(), traces, store) {
        Ok(drive) => drive,
        Err(outcome) => return Err(ended(outcome, plan)),
    };
    match add(sum, run, &drive) {
        Ok(()) => with_image(alloc, run, plan, drive, store),
        Err(outcome) => Err(ended(outcome, plan)),
    }
}

/// The input of a run whose drive comes from elsewhere, and which has none here: its image is read, and no
/// trace.
pub(crate) fn undriven_for<S: Store>(
    alloc: Global,
    run: u32,
    plan: RunPlan,
    store: &mut S,
) -> Result<RunInput, End>
    ensures comes { ImageComes (change_of S.shows store.old store.new) run plan [] (outcomes result) }
    ensures plan { IfOk result (λ input. input.plan ≡ plan) }
    ensures image { IfOk result (λ input. length input.image ≤ MOST_WORDS) }
    ensures named { IfErr result (λ end. (end.file ≡ name_by plan (role_in end.outcome))
        × IsOf run (role_in end.outcome)) }
    ensures no_memory { IfErr result (λ end. TellsNoMemory end.outcome) }
    ensures keeps { KeepsFiles (change_of S.shows store.old store.new) result }
{
    match SharedItems::of(Vec::new(alloc)) {
        Ok(drive) => with_image(alloc, run, plan, drive, store),
        Err(_) => Err(ended(Outcome::Memory, plan)),
    }
}

/// The input of a run with this drive: its image is read.
fn with_image<S: Store>(
    alloc: Global,
    run: u32,
    plan: RunPlan,
    drive: SharedItems<Drive>,
    store: &mut S,
) -> Result<RunInput, End>
    ensures comes { ImageComes (change_of S.shows store.old store.new) run plan drive (outcomes result) }
    ensures plan { IfOk result (λ input. input.plan ≡ plan) }
    ensures drive { IfOk result (λ input. input.drive ≡ drive) }
    ensures image { IfOk result (λ input. length input.image ≤ MOST_WORDS) }
    ensures named { IfErr result (λ end. (end.file ≡ name_by plan (role_in end.outcome))
        × IsOf run (role_in end.outcome)) }
    ensures no_memory { IfErr result (λ end. TellsNoMemory end.outcome) }
    ensures keeps { KeepsFiles (change_of S.shows store.old store.new) result }
{
    match image_for(alloc, run, plan.image.as_str(), store) {
        Ok(image) => Ok(RunInput { plan, drive, image }),
        Err(outcome) => Err(ended(outcome, plan)),
    }
}

/// The end of a call that speaks of a file of this run.
fn ended(outcome: Outcome, plan: RunPlan) -> End
    ensures outcome { result.outcome ≡ outcome }
    ensures file { result.file ≡ name_by plan (role_in outcome) }
{
    let (trace, image) = (plan.trace, plan.image);
    let file = match outcome.role() {
        Some(Role::Trace { .. }) => Some(trace),
        Some(Role::Image { .. }) => Some(image),
        _ => None,
    };
    End { outcome, file }
}

/// Adds the ticks of this drive to a sum, where one is kept; a sum of more than 1,000,000 is refused.
fn add(sum: Option<u32>, run: u32, drive: &SharedItems<Drive>) -> Result<(), Outcome>
    requires sum { ForSome sum (λ n. n ≤ 1000000) }
    requires drive { length drive.now ≤ 20000 }
    ensures refused { MatchOption (refusing sum run (length drive.now)) (IsOk result)
        (λ r. result ≡ Err (Refused r)) }
    ensures added { IsOk result → ForSome sum (λ n. n + length drive.now ≤ 1000000) }
    ensures role { IfErr result (λ outcome. role_in outcome ≡ Some role.Campaign) }
    ensures no_memory { IfErr result TellsNoMemory }
{
    let Some(sum) = sum else {
        return Ok(());
    };
    match add_ticks(sum, run, drive.as_slice().len() as u32) {
        Ok(_) => Ok(()),
        Err(fault) => Err(Outcome::Refused(Refusal::Campaign(fault))),
    }
}

/// The drive in the trace of that name, or how the call ends without it.
fn drive_for<S: Store>(
    alloc: Global,
    run: u32,
    file: &str,
    traces: &mut Traces,
    store: &mut S,
) -> Result<SharedItems<Drive>, Outcome>
    ensures reads { ReadsFile (role.Trace run) (trace_file run) file.now
        (change_of S.shows store.old store.new) result }
    ensures keeps { KeepsFiles (change_of S.shows store.old store.new) result }
    ensures drive { IfOk result (λ drive. (1 ≤ length drive) × (length drive ≤ 20000) × All IsDrive drive) }
    ensures role { IfErr result (λ outcome. IsOf run (role_in outcome)) }
{
    match file_bytes(alloc, Role::Trace { run }, file, store) {
        Ok(bytes) => drive_in(alloc, run, bytes, traces),
        Err(end) => Err(end),
    }
}

/// The drive that these bytes of a trace say, or how the call ends without it.
fn drive_in(
    alloc: Global,
    run: u32,
    bytes: Items<u8>,
    traces: &mut Traces,
) -> Result<SharedItems<Drive>, Outcome>
    ensures says { Says (trace_or_refusal run) bytes result }
    ensures drive { IfOk result (λ drive. (1 ≤ length drive) × (length drive ≤ 20000) × All IsDrive drive) }
    ensures role { IfErr result (λ outcome. IsOf run (role_in outcome)) }
{
    match traces.drive_of(alloc, bytes) {
        Ok(drive) => Ok(drive),
        Err(TraceFault::Memory) => Err(Outcome::Memory),
        Err(fault) => Err(Outcome::Refused(Refusal::Trace { run, fault })),
    }
}

/// The words in the image of that name, or how the call ends without them.
fn image_for<S: Store>(
    alloc: Global,
    run: u32,
    file: &str,
    store: &mut S,
) -> Result<Items<u16>, Outcome>
    ensures reads { ReadsFile (role.Image run) (image_file run) file.now
        (change_of S.shows store.old store.new) result }
    ensures keeps { KeepsFiles (change_of S.shows store.old store.new) result }
    ensures image { IfOk result (λ image. length image ≤ MOST_WORDS) }
    ensures role { IfErr result (λ outcome. IsOf run (role_in outcome)) }
{
    match file_bytes(alloc, Role::Image { run }, file, store) {
        Ok(bytes) => image_in(alloc, run, bytes.as_slice()),
        Err(end) => Err(end),
    }
}
