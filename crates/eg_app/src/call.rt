// The top call.
ghost use Rattle.std.specs.Prelude.{◌≡◌, false, Some};
ghost use Rattle.eg_desk.specs.Words.{word_bytes, asks_lines, command_of, said, KeepsLimits};
ghost use Rattle.eg_app.specs.Ends.{Ends, HasPutNothing, Completes, call};
ghost use Rattle.eg_app.specs.Missing.{ReadsNothing, TellsMissing};
ghost use Rattle.eg_app.specs.Headline.{TellsHeadline};
ghost use Rattle.eg_desk.specs.Names.{Names, IsFileName, NotesOutcome};
ghost use Rattle.eg_app.specs.Unlined.{EndsWithoutLines, no_lines};
ghost use Rattle.eg_base.specs.Outside.{ShownStore};
ghost use Rattle.eg_outcome.specs.Changes.{change, change_of};
ghost use Rattle.eg_outcome.specs.Outcomes.{TellsNoMemory};
ghost use Rattle.eg_outcome.specs.declared.outcome.Outcome.TheVariants.{Done};

use crate::gather::gather;
use crate::perform::perform;
use eg_base::{Sink, Store};
use eg_desk::Command;
use eg_lines::{Lines, SureLines};
use eg_outcome::{End, Outcome, put_note};
use eg_tick::Ticks;
use std::alloc::Global;

/// Does what the words ask for (docs/FORMATS.md, "Commands"), where no lines come: for a command that reads
/// lines there are none. Otherwise as `egasim_on_lines`.
pub fn egasim<S: Store, K: Sink, N: Sink>(
    alloc: Global,
    words: &[String],
    store: &mut S,
    out: &mut K,
    notes: &mut N,
    steps: &mut Ticks,
) -> Outcome
    ensures headline { result ≡ Done → TellsHeadline (command_of (word_bytes words.now)) (S.shows store.old)
        (change_of K.shows out.old out.new) }
    ensures ends { EndsWithoutLines (command_of (word_bytes words.now))
        ((out.new ≡ out.old) × (steps.new ≡ steps.old)) (change_of S.shows store.old store.new)
        (change_of K.shows out.old out.new) (change steps.old steps.new) result }
    ensures missing { TellsMissing (command_of (word_bytes words.now)) (S.shows store.old)
        (λ end. result ≡ end) }
    ensures completes { Completes (command_of (word_bytes words.now)) (change_of S.shows store.old store.new)
        no_lines (change_of K.shows out.old out.new) result }
    ensures no_memory { TellsNoMemory result }
    ensures nothing_read { ReadsNothing (command_of (word_bytes words.now)) → store.new ≡ store.old }
    ensures files { (S.shows store.new).files ≡ (S.shows store.old).files }
    ensures nothing_put { HasPutNothing (command_of (word_bytes words.now)) result → out.new ≡ out.old }
    ensures nothing_played { HasPutNothing (command_of (word_bytes words.now)) result
        → steps.new ≡ steps.old }
    ensures note { NotesOutcome (command_of (word_bytes words.now)) (S.shows store.old)
        (change_of N.shows notes.old notes.new) result }
    ensures no_note { result ≡ Done → notes.new ≡ notes.old }
{
    let mut lines = SureLines::new(Vec::new(alloc));
    egasim_on_lines(alloc, words, store, &mut lines, out, notes, steps)
}

/// Does what the words ask for (docs/FORMATS.md, "Commands"): it reads files from `store`, and then `lines`
/// to their end, where the command takes lines; writes its text to `out`, counts in `steps` the ticks that
/// it makes, and notes any outcome but Done with one line in `notes`. The words don't hold the program's
/// name. What `notes` refuses changes no outcome (shown by tests: no clause on the outcome speaks of it).
///
/// Claim 1 (C55, C59, C62; `headline`): On Done, each run of which `run`, `table`, `margins`, `record`,
/// `sweep` or `soak` told is the run that the files (of `soak`, the seed) say, and keeps the headline, field
/// by field (docs/READING.md).
/// Claim 15 (`headline`).
/// Claim 35 (F1, F3; `ends`): On Done, the output has got exactly the text of the command, by what its files
/// say. Every other outcome but Memory comes only if its cause was met.
/// Claim 36 (F3; `completes`): A well-formed command ends Done or Memory if its files are found and accepted,
/// its lines, run and grid are accepted, and no fault of reading or of writing is met.
/// Claim 37 (F5; `nothing_put`, `nothing_played`): On Usage, ReadFault and Refused, nothing was put and no
/// tick was made. Exceptions are `signals`, and `couple` if the outcome is about standard input: claims 51
/// and 65 say what was put.
/// Claim 48 (C84, F32, F33; `ends`): On Done, `replay` and `signals` have read all lines, and have put
/// exactly the text of what the model of level 2 says of the readings.
/// Claim 49 (F14; `ends`): Every other outcome of `replay` and `signals` but Memory comes only if its cause
/// was met. A refusal names the first cause: the header; or the first bad line, by its number; or that there
/// are no records.
/// Claim 51 (F14; `ends`, `nothing_put`): If a line is refused, or reading a line fails, `signals` and
/// `couple` have put the rows of all lines before it, and `replay` has put nothing.
/// Claim 52 (F3; `ends`): On WriteFault, and on Memory once lines are read, `replay` and `signals` have
/// accepted all lines that came, and `couple` has taken them. A prefix of the text of these lines was put,
/// by `replay` only if no line is left.
/// Claim 54 (F3; `completes`): Claim 36 holds of `replay` and `signals` too if their source is sure and all
/// its lines are good, and of `couple` if its source is sure and all its answers are taken.
/// Claim 64 (C89, F35; `ends`): On Done, `couple` has taken all lines, and the text that it has put is
/// exactly that of the rows of its answers, and of what is commanded next at each.
/// Claim 65 (C89, F37; `ends`): A refusal of a line by `couple` names the first line that is no answer, that
/// breaks a law of engines, or that is one more than 20,000. What the lines before it say was put.
/// Claim 72 (`ends`).
pub fn egasim_on_lines<S: Store, L: Lines, K: Sink, N: Sink>(
    alloc: Global,
    words: &[String],
    store: &mut S,
    lines: &mut L,
    out: &mut K,
    notes: &mut N,
    steps: &mut Ticks,
) -> Outcome
    // The headline (docs/READING.md, "The headline, field by field"): claims 1 and 15, and claim 59 of the
    // run that `couple` took.
    ensures headline { result ≡ Done → TellsHeadline (command_of (word_bytes words.now)) (S.shows store.old)
        (change_of K.shows out.old out.new) }

    // How it ends, what was written then, which lines were read and which ticks were made, and when each
    // outcome comes.
    ensures ends { Ends (command_of (word_bytes words.now))
        ((lines.new ≡ lines.old) × (out.new ≡ out.old) × (steps.new ≡ steps.old))
        (call (change_of S.shows store.old store.new) (change_of L.shows lines.old lines.new)
        (change_of K.shows out.old out.new) (change steps.old steps.new)) result }
    ensures missing { TellsMissing (command_of (word_bytes words.now)) (S.shows store.old)
        (λ end. result ≡ end) }
    ensures completes { Completes (command_of (word_bytes words.now)) (change_of S.shows store.old store.new)
        (L.shows lines.old) (change_of K.shows out.old out.new) result }
    ensures no_memory { TellsNoMemory result }

    // What stays as it was.
    ensures nothing_read { ReadsNothing (command_of (word_bytes words.now)) → store.new ≡ store.old }
    ensures files { (S.shows store.new).files ≡ (S.shows store.old).files }
    ensures no_line { asks_lines (command_of (word_bytes words.now)) ≡ false → lines.new ≡ lines.old }
    ensures nothing_put { HasPutNothing (command_of (word_bytes words.now)) result → out.new ≡ out.old }
    ensures nothing_played { HasPutNothing (command_of (word_bytes words.now)) result
        → steps.new ≡ steps.old }

    // The note of the outcome is put, and none after Done.
    ensures note { NotesOutcome (command_of (word_bytes words.now)) (S.shows store.old)
        (change_of N.shows notes.old notes.new) result }
    ensures no_note { result ≡ Done → notes.new ≡ notes.old }
{
    let Some(command) = Command::of(words) else {
        put_note(alloc, &Outcome::Usage, "", notes);
        return Outcome::Usage;
    };
    let end = work(alloc, command, store, lines, out, steps);
    put_note(alloc, &end.outcome, file_of(command, &end), notes);
    end.outcome
}

/// The name of the file that the outcome of a command speaks of, or nothing where it speaks of none.
fn file_of<'a>(command: Command<'a>, end: &'a End) -> &'a str
    ensures { (store : ShownStore) → Names (said command.entry) store end.now.outcome end.now.file
        → IsFileName (Some (said command.entry)) store end.now.outcome result.now }
{
    match &end.file {
        Some(name) => name.as_str(),
        None => command.file_of(&end.outcome),
    }
}

/// Does what a command asks for, but for its note: all that it needs is gathered, and then it is performed.
fn work<S: Store, L: Lines, K: Sink>(
    alloc: Global,
    command: Command<'_>,
    store: &mut S,
    lines: &mut L,
    out: &mut K,
    steps: &mut Ticks,
) -> End
    requires limits { KeepsLimits (said command) }
    ensures ends { Ends (Some (said command.entry))
        ((lines.new ≡ lines.old) × (out.new ≡ out.old) × (steps.new ≡ steps.old))
        (call (change_of S.shows store.old store.new) (change_of L.shows lines.old lines.new)
        (change_of K.shows out.old out.new) (change steps.old steps.new)) result.outcome }
    ensures names { Names (said command.entry) (S.shows store.old) result.outcome result.file }
    ensures missing { TellsMissing (Some (said command.entry)) (S.shows store.old)
        (λ end. result.outcome ≡ end) }
    ensures no_memory { TellsNoMemory result.outcome }
    ensures nothing_read { ReadsNothing (Some (said command.entry)) → store.new ≡ store.old }
    ensures files { (S.shows store.new).files ≡ (S.shows store.old).files }
    ensures no_line { asks_lines (Some (said command.entry)) ≡ false → lines.new ≡ lines.old }
    ensures nothing_put { HasPutNothing (Some (said command.entry)) result.outcome → out.new ≡ out.old }
    ensures nothing_played { HasPutNothing (Some (said command.entry)) result.outcome
        → steps.new ≡ steps.old }
{
    match gather(alloc, command, store) {
        Ok(job) => End::of(perform(alloc, job, lines, out, steps)),
        Err(end) => end,
    }
}
