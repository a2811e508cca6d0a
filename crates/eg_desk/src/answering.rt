// `answers FILE`: the right answers to the questions of a calibration file.
ghost use Rattle.std.specs.Prelude.{◌≡◌, ◌++◌, IfOk, OnOk, string_bytes};
ghost use Rattle.eg_cal.specs.declared.key.CalFault.TheVariants.{Memory};
ghost use Rattle.eg_outcome.specs.Changes.{change_of};
ghost use Rattle.eg_outcome.specs.Outcomes.{LineEnds};
ghost use Rattle.eg_outcome.specs.Reads.{KeepsFiles, ReadsFile, Says};
ghost use Rattle.eg_outcome.specs.declared.outcome.Role.TheVariants as role;
ghost use Rattle.eg_desk.specs.Ends.{answers_said, answers_or_refusal, answers_file};
ghost use Rattle.eg_desk.specs.Texts.{answer_line, answers_text};

use eg_answer::Questions;
use eg_base::{NoMemory, Sink, Store};
use eg_cal::{CalFault, read_answers};
use eg_outcome::{Outcome, Role, file_bytes, hand_on, put_text};
use std::alloc::{AllocError, Global};

/// The questions of the calibration file of that name, whatever its answers, each with the right answer; or
/// how the call ends without them (docs/FORMATS.md, "Commands").
pub fn questions_of<S: Store>(
    alloc: Global,
    file: &str,
    store: &mut S,
) -> Result<Questions, Outcome>
    ensures reads { ReadsFile role.Calibration answers_file file.now
        (change_of S.shows store.old store.new) result }
    ensures keeps { KeepsFiles (change_of S.shows store.old store.new) result }
{
    match file_bytes(alloc, Role::Calibration, file, store) {
        Ok(bytes) => questions_in(alloc, bytes.as_slice()),
        Err(end) => Err(end),
    }
}

/// The questions that these bytes of a calibration file say, each with the right answer, or how the call ends
/// without them.
#[tactic(auto, unfolding(crate::specs::Ends::answers_said))]
fn questions_in(alloc: Global, bytes: &[u8]) -> Result<Questions, Outcome>
    ensures { Says answers_or_refusal bytes.now result }
{
    hand_on(read_answers(alloc, bytes))
}

/// Puts the right answer to each question, a line for each (docs/FORMATS.md, "Commands").
pub fn put_answers<K: Sink>(alloc: Global, questions: &Questions, out: &mut K) -> Outcome
    ensures { LineEnds (answers_text questions.now) (change_of K.shows out.old out.new) result }
{
    let Ok(text) = answers_text(alloc, questions) else {
        return Outcome::Memory;
    };
    put_text(text.as_bytes(), out)
}

/// A line for each question, the first being 0.
fn answers_text(alloc: Global, questions: &Questions) -> Result<String, NoMemory>
    ensures { IfOk result (λ text. string_bytes text ≡ answers_text questions.now) }
{
    let mut text = String::new(alloc);
    for i in 0..questions.len() {
        push_answer(&mut text, i, questions.answer(i))?;
    }
    Ok(text)
}

/// Appends the line of the answer to question `n`.
fn push_answer(text: &mut String, n: usize, answer: u16) -> Result<(), AllocError>
    ensures { OnOk result (string_bytes text.new ≡ string_bytes text.old ++ answer_line n answer) }
{
    write!(text, "answer {n}: {answer}\n")
}
