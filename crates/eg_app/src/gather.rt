// What a command needs is read and accepted.
ghost use Rattle.std.specs.Prelude.{◌≡◌, Err, IfErr, IfOk, None, Some};
ghost use Rattle.eg_outcome.specs.Changes.{change_of};
ghost use Rattle.eg_outcome.specs.Outcomes.{TellsNoMemory};
ghost use Rattle.eg_outcome.specs.Reads.{KeepsFiles};
ghost use Rattle.eg_outcome.specs.Inputs.{outcomes};
ghost use Rattle.eg_desk.specs.Words.{said, said_work, KeepsLimits, WorkKeepsLimits};
ghost use Rattle.eg_app.specs.Gathered.{Gathers, GathersBy, IsSound};
ghost use Rattle.eg_app.specs.Missing.{EndsBy, ReadsNothing, TellsMissing, TellsMissingOwn, own_file};
ghost use Rattle.eg_desk.specs.Names.{Names, NamesBy};

use crate::job::Job;
use eg_base::Store;
use eg_desk::{Command, Work, check_rows, image_of, questions_of, source_words};
use eg_outcome::{End, calibration_for, input_named, input_swept, inputs_of, undriven_named};
use eg_values::Calibration;
use std::alloc::Global;

/// Reads all files that a command needs, each once, the calibration first, and accepts them; or the call ends
/// without them (docs/FORMATS.md, "Outcomes"). Nothing is written, no line is read, and no tick is made.
pub(crate) fn gather<S: Store>(
    alloc: Global,
    command: Command<'_>,
    store: &mut S,
) -> Result<Job, End>
    requires limits { KeepsLimits (said command) }
    ensures gathers { Gathers (said command.entry) (change_of S.shows store.old store.new)
        (outcomes result) }
    ensures sound { IfOk result IsSound }
    ensures names { IfErr result (λ end.
        Names (said command.entry) (S.shows store.old) end.outcome end.file) }
    ensures missing { TellsMissing (Some (said command.entry)) (S.shows store.old)
        (EndsBy (outcomes result)) }
    ensures no_memory { IfErr result (λ end. TellsNoMemory end.outcome) }
    ensures unread { ReadsNothing (Some (said command.entry)) → store.new ≡ store.old }
    ensures keeps { KeepsFiles (change_of S.shows store.old store.new) result }
{
    match command {
        Command::By { calibration, work } => match calibration_for(alloc, calibration, store) {
            Ok(calibration) => gather_by(alloc, calibration, work, store),
            Err(outcome) => Err(End::of(outcome)),
        },
        Command::Soak { seed, runs } => Ok(Job::Soak { seed, runs }),
        Command::Answers { file } => match questions_of(alloc, file, store) {
            Ok(questions) => Ok(Job::Answers { questions }),
            Err(outcome) => Err(End::of(outcome)),
        },
        Command::Asm { file } => match source_words(alloc, file, store) {
            Ok(words) => Ok(Job::Asm { words }),
            Err(outcome) => Err(End::of(outcome)),
        },
        Command::Dis { file } => match image_of(alloc, file, store) {
            Ok(words) => Ok(Job::Dis { words }),
            Err(outcome) => Err(End::of(outcome)),
        },
    }
}

/// Reads what work by this calibration needs.
fn gather_by<S: Store>(
    alloc: Global,
    calibration: Calibration,
    work: Work<'_>,
    store: &mut S,
) -> Result<Job, End>
    requires limits { WorkKeepsLimits (said_work work) }
    ensures gathers { GathersBy calibration (said_work work.entry) (change_of S.shows store.old store.new)
        (outcomes result) }
    ensures sound { IfOk result IsSound }
    ensures names { IfErr result (λ end.
        NamesBy (said_work work.entry) (S.shows store.old) end.outcome end.file) }
    ensures missing { TellsMissingOwn (said_work work.entry) (S.shows store.old)
        (EndsBy (outcomes result)) }
    ensures no_memory { IfErr result (λ end. TellsNoMemory end.outcome) }
    ensures unread { own_file (said_work work.entry) ≡ None → store.new ≡ store.old }
    ensures keeps { KeepsFiles (change_of S.shows store.old store.new) result }
{
    match work {
        Work::Check { file } => match check_rows(alloc, file, store) {
            Ok(rows) => Ok(Job::Check { calibration, rows }),
            Err(outcome) => Err(End::of(outcome)),
        },
        Work::Bound => Ok(Job::Bound { calibration }),
        Work::Limits => Ok(Job::Limits { calibration }),
        Work::Coverage => Ok(Job::Coverage { calibration }),
        Work::Run { telling, campaign } => match inputs_of(alloc, campaign, store) {
            Ok(inputs) => Ok(Job::Run {
                telling,
                calibration,
                inputs,
            }),
            Err(end) => Err(end),
        },
        Work::Record { run } => match input_named(alloc, run, store) {
            Ok(input) => Ok(Job::Record { calibration, input }),
            Err(end) => Err(end),
        },
        Work::Sweep { run, step } => match input_swept(alloc, run, step, store) {
            Ok(input) => Ok(Job::Sweep {
                calibration,
                input,
                step,
            }),
            Err(end) => Err(end),
        },
        Work::Replay => Ok(Job::Replay { calibration }),
        Work::Signals => Ok(Job::Signals { calibration }),
        Work::Couple { run } => match undriven_named(alloc, run, store) {
            Ok(input) => Ok(Job::Couple { calibration, input }),
            Err(end) => Err(end),
        },
    }
}
