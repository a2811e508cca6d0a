// The reader of calibration files.
ghost use Rattle.std.specs.Prelude.{◌≡◌, true, Err};
ghost use Rattle.toml.specs.View.{table_view};
ghost use Rattle.eg_toml.specs.Documents.{document_of};
ghost use Rattle.eg_toml.specs.Weight.{is_too_heavy};
ghost use Rattle.eg_toml.specs.Refusals.{IsRead, Checks};
ghost use Rattle.eg_cal.specs.declared.key.CalFault.TheVariants.{Memory};
ghost use Rattle.eg_cal.specs.Calibration.{calibration_of, refusal_of, unanswered_refusal_of, parts_of, parts_fault, rising_fault, window_fault};
ghost use Rattle.eg_cal.specs.Answers.{answers_of, answered_in};

use crate::document::Document;
use crate::entries::{AnswerTimes, Entries, entries_in, version_in};
use crate::unanswered::Unanswered;
use crate::{CalFault, CalKey};
use eg_answer::{Questions, Rules, Times};
use eg_num::Table2;
use eg_toml::read_document;
use eg_torque::Permit;
use eg_values::Calibration;
use std::alloc::Global;

/// The calibration that a file says (docs/FORMATS.md, "Calibration files"), or the first rule that the file
/// breaks. The result is exactly that of `calibration_of`, unless memory runs out, which may happen with any
/// bytes.
pub fn read_calibration(alloc: Global, bytes: &[u8]) -> Result<Calibration, CalFault>
    ensures read { IsRead Memory (calibration_of (document_of bytes.now)) result }
    // A document that weighs too much isn't read, and counts as one for which there is no memory.
    ensures heavy { is_too_heavy bytes.now ≡ true → result ≡ Err Memory }
{
    let root = read_document(alloc, bytes)?;
    calibration_in(&Document { root })
}

/// The questions of a calibration file, each with the right answer, whatever answers stand in it
/// (docs/CONCEPT.md, "`answers`"), or the first rule that the file breaks, the rule on answers left out. The
/// result is exactly that of `answers_of`, unless memory runs out, which may happen with any bytes.
pub fn read_answers(alloc: Global, bytes: &[u8]) -> Result<Questions, CalFault>
    ensures read { IsRead Memory (answers_of (document_of bytes.now)) result }
    // A document that weighs too much isn't read, and counts as one for which there is no memory.
    ensures heavy { is_too_heavy bytes.now ≡ true → result ≡ Err Memory }
{
    let root = read_document(alloc, bytes)?;
    answers_in(&Document { root })
}

/// The calibration that a document says, or the first rule that it breaks.
fn calibration_in(document: &Document) -> Result<Calibration, CalFault>
    ensures { let ms = table_view document.now.root in Checks (refusal_of ms) (parts_of ms) result }
{
    let parts = unanswered_in(document)?;
    parts.checked()
}

/// The questions of a document, each with the right answer, or the first other rule that it breaks.
fn answers_in(document: &Document) -> Result<Questions, CalFault>
    ensures { let ms = table_view document.now.root in
        Checks (unanswered_refusal_of ms) (answered_in (parts_of ms)) result }
{
    let parts = unanswered_in(document)?;
    Ok(parts.right_answers())
}

/// What a document says, whatever its answers, or the first other rule that it breaks.
fn unanswered_in(document: &Document) -> Result<Unanswered, CalFault>
    ensures { let ms = table_view document.now.root in
        Checks (unanswered_refusal_of ms) (parts_of ms) result }
{
    let version = version_in(document)?;
    let entries = entries_in(document, version)?;
    if !document.is_all_known(version) {
        return Err(CalFault::Key {
            key: CalKey::Unknown,
        });
    }
    put_together(entries)
}

/// What these entries are together, whatever the answers, or the first other rule that they break.
fn put_together(entries: Entries) -> Result<Unanswered, CalFault>
    ensures { Checks (parts_fault entries) entries result }
{
    let permit = permit_of(entries.permit)?;
    let times = times_of(entries.times)?;
    let tolerances = entries.tolerances;
    let rules = Rules {
        permit,
        fall: entries.fall,
        kt: entries.kt,
        threshold: entries.threshold,
        tolerances,
        pair: entries.pair,
        torque: entries.torque,
    };
    Ok(Unanswered {
        rules,
        plant: entries.plant,
        times,
        questions: entries.questions,
        brake: entries.brake,
    })
}

/// The permit table of these values, where no row falls.
fn permit_of(table: Table2) -> Result<Permit, CalFault>
    ensures { Checks (rising_fault table) table result }
{
    match Permit::new(table) {
        Ok(permit) => Ok(permit),
        Err(row) => Err(CalFault::Rising { row }),
    }
}

/// The times of the answers, where the send tick is inside the window and the window inside the period.
fn times_of(times: AnswerTimes) -> Result<Times, CalFault>
    ensures { Checks (window_fault times) times result }
{
    let AnswerTimes {
        period,
        first,
        last,
        send,
        weights,
    } = times;
    match Times::new(period, first, last, send, weights) {
        Some(times) => Ok(times),
        None => Err(CalFault::Window),
    }
}
